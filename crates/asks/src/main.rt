// The program: recorded requests from standard input, each answered by a line with all lent memory as it is afterwards.
#![tactic(auto)]

mod turns;
mod window;

use crate::turns::answer_all;
use crate::window::Window;
use printing::Printer;
use requests::argument::Stop;
use saying::memory::Memory;
use standard::{Failed, Streams, streams_of};

// The last line, by what stands in the way of the next request. One that needs more bytes is cut: none came.
fn finish(printer: &mut Printer, stop: Stop) -> Result<(), Failed> {
    match stop {
        Stop::Long => printer.text(b"long\n")?,
        Stop::What => printer.text(b"what\n")?,
        Stop::More => printer.text(b"cut\n")?,
    }
    printer.flush()
}

// The requests that are held are answered, and what waits is written before more is read: a caller may wait for each answer.
// A read that failed cuts no request: it ends the program, and was said.
// Nothing says that an input ends, so the turns are counted: after as many reads as 64 bits can count the program ends.
fn run(
    streams: Streams,
    window: &mut Window,
    memory: &mut Memory,
    printer: &mut Printer,
) -> Result<(), Failed> {
    for _ in 0..u64::MAX {
        let done = answer_all(window.held(), memory, printer)?;
        printer.flush()?;
        let Stop::More = done.stop else {
            return finish(printer, done.stop);
        };
        let left = window.held().len() - done.at;
        if window.read_after(streams, done.at)? == 0 {
            return if left == 0 {
                Ok(())
            } else {
                finish(printer, Stop::More)
            };
        }
    }
    Ok(())
}

fn main(rt: HostRuntime) {
    // Room for the longest request, and more than it needs.
    let mut window = [0u8; 327680];
    let mut words = [0u32; 8192];
    let mut others = [0u32; 8192];
    let mut buffer = [0u8; 65536];
    let mut values = [0i32; 8192];
    let mut output = [0i32; 8192];
    let mut out = [0u8; 4096];
    let streams = streams_of(&rt);
    let mut memory = Memory {
        words: &mut words,
        others: &mut others,
        buffer: &mut buffer,
        values: &mut values,
        output: &mut output,
    };
    // What fails has said so itself.
    let _ = run(
        streams,
        &mut Window::new(&mut window),
        &mut memory,
        &mut Printer::new(streams, &mut out),
    );
}
