// A hold that feeds itself, drawn in two turns, into an empty store. Both rows have one tree, so one row is added.
#![tactic(auto)]

use printing::Printer;
use register::insert;
use standard::{Failed, Streams, streams_of};

fn print(to: Streams, numbers: &[u32]) -> Result<(), Failed> {
    let mut out = [0u8; 64];
    let mut printer = Printer::new(to, &mut out);
    printer.tell_list(numbers)?;
    printer.put(b'\n')?;
    printer.flush()
}

fn main(rt: HostRuntime) {
    let mut store = [0u32; 6145];
    let mut answers = [0u32; 2];
    let sheet = b"\0\0\0\x11\x01\0\x02\0\x06\0\0\x01\0\x01\0\x06\0\0\x01\0\0";
    let done = insert(&mut store, sheet, &mut answers);
    // What fails has said so itself.
    let _ = print(
        streams_of(&rt),
        &[done.number, done.added, answers[0], answers[1]],
    );
}
