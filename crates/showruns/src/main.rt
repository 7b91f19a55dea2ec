// Prints numbers of a kind of its own: its `show` promises nothing and forgets each write that failed, and the printer keeps that all the same.
#![tactic(auto)]

use printing::{Printer, Shown, Told};
use standard::{Failed, Streams, streams_of};

// A number that is shown as a letter, which says that all is fine, whatever came of it. 0 cannot be shown.
struct Letter {
    byte: u8,
}

impl Shown for Letter {
    fn show(&self, printer: &mut Printer) -> Result<(), Failed> {
        if self.byte == 0 {
            return Err(Failed::Write);
        }
        let _ = printer.put(self.byte);
        Ok(())
    }
}

const A: Letter = Letter { byte: b'a' };

const B: Letter = Letter { byte: b'b' };

const NEVER: Letter = Letter { byte: 0 };

// The room is such that what waits is written as letters are shown.
fn print_letters(to: Streams) -> Result<(), Failed> {
    let mut out = [0u8; 2];
    let mut printer = Printer::new(to, &mut out);
    A.show(&mut printer)?;
    B.show(&mut printer)?;
    printer.numbers(&[A, B, A])?;
    printer.put(b'\n')?;
    printer.list(&[A, B, B])?;
    printer.put(b'\n')?;
    printer.flush()
}

fn print_numbers(to: Streams) -> Result<(), Failed> {
    let mut out = [0u8; 2];
    let mut printer = Printer::new(to, &mut out);
    5u32.show(&mut printer)?;
    (-6i32).tell(&mut printer)?;
    printer.numbers(&[7u32, 8])?;
    printer.tell_numbers(&[9u32, 10])?;
    printer.put(b'\n')?;
    printer.list(&[-1i32, 2])?;
    printer.put(b'\n')?;
    printer.tell_list(&[-3i32, 4])?;
    printer.put(b'\n')?;
    printer.flush()
}

// A failure that `show` tells of is handed on: of the same numbers none after it is shown, and what comes later is printed.
// Of no numbers nothing is printed.
fn handed_on(to: Streams) -> Result<(), Failed> {
    let mut out = [0u8; 16];
    let mut printer = Printer::new(to, &mut out);
    let none: &[Letter] = &[];
    let told = printer.list(&[NEVER, B]).is_err()
        && printer.list(&[A, NEVER, B]).is_err()
        && printer.numbers(&[A, NEVER, B]).is_err()
        && printer.numbers(none).is_ok()
        && printer.list(none).is_ok()
        && printer.list(&[A]).is_ok()
        && printer.list(&[A, B, A, B, A]).is_ok();
    let line: &[u8] = if told {
        b" handed on\n"
    } else {
        b" forgotten\n"
    };
    printer.text(line)?;
    printer.flush()
}

fn print(to: Streams) -> Result<(), Failed> {
    print_letters(to)?;
    print_numbers(to)?;
    handed_on(to)
}

fn main(rt: HostRuntime) {
    // What fails has said so itself.
    let _ = print(streams_of(&rt));
}
