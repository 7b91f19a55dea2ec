// Runs the long examples of the rules: sheets of 1,024 and of 1,025 rows, and the capacity of runs of words.
#![tactic(auto)]

use sheet::reader::read_sheet;
use standard::{Failed, Streams, streams_of, write, write_number};
use store::capacity::capacity_of;
use store::row::ROOM;

// The sheet's number, its rows, and the byte at which its fault starts.
fn print_sheet(to: Streams, b: &[u8]) -> Result<(), Failed> {
    match read_sheet(b) {
        Ok(rows) => print_three(to, 0, rows as u64, 0),
        Err(fault) => print_three(to, fault.number as u64, 0, fault.place as u64),
    }
}

fn print_three(to: Streams, number: u64, rows: u64, at: u64) -> Result<(), Failed> {
    write_number(to, Ok(()), number)?;
    write(to, Ok(()), b" ")?;
    write_number(to, Ok(()), rows)?;
    write(to, Ok(()), b" ")?;
    write_number(to, Ok(()), at)?;
    write(to, Ok(()), b"\n")
}

fn print_capacity(to: Streams, words: usize) -> Result<(), Failed> {
    match capacity_of(words, ROOM) {
        None => write(to, Ok(()), b"none")?,
        Some(rows) => write_number(to, Ok(()), rows as u64)?,
    }
    write(to, Ok(()), b"\n")
}

fn print(to: Streams) -> Result<(), Failed> {
    // Rows without inputs, label 0: five zero bytes each, after a head of seven.
    let mut b = [0u8; 5132];
    b[4] = 1;
    b[2] = 20;
    b[3] = 3;
    b[5] = 4;
    print_sheet(to, &b[..5127])?;
    b[3] = 8;
    b[6] = 1;
    print_sheet(to, &b)?;
    for words in [0usize, 1, 6, 7, 6144, 6145, 6200] {
        print_capacity(to, words)?;
    }
    Ok(())
}

fn main(rt: HostRuntime) {
    // What fails has said so itself.
    let _ = print(streams_of(&rt));
}
