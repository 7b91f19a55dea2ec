// Runs readers over bundles. A line for each step: the bundle, the length shown, and the place after moving; the last step stays where it is.
#![tactic(auto)]

use bundle::{reader_moves, reader_shows};
use standard::{Failed, Streams, streams_of, write, write_number};

// Three sheets of the rules in a row: B (21 bytes), A (14) and D (26).
const MANY: [u8; 61] = [
    0, 0, 0, 17, 1, 0, 2, 0, 6, 0, 0, 1, 0, 1, 0, 6, 0, 0, 1, 0, 0, 0, 0, 0, 10, 1, 0, 1, 0, 6, 0,
    0, 1, 0, 0, 0, 0, 0, 22, 1, 0, 3, 0, 3, 0, 0, 2, 0, 1, 0, 2, 0, 1, 0, 1, 0, 0, 2, 0, 40, 0,
];

// A length field of all ones, and three bytes more.
const ONES: [u8; 7] = [255, 255, 255, 255, 1, 0, 0];

// Nine zeros: two sheets of a length field alone, and a byte left over.
const ZEROS: [u8; 9] = [0; 9];

fn print_step(to: Streams, name: &[u8], shown: usize, place: usize) -> Result<(), Failed> {
    write(to, Ok(()), name)?;
    write(to, Ok(()), b" ")?;
    write_number(to, Ok(()), shown as u64)?;
    write(to, Ok(()), b" ")?;
    write_number(to, Ok(()), place as u64)?;
    write(to, Ok(()), b"\n")
}

// A reader set at a place, until it stays.
fn read(to: Streams, name: &[u8], bundle: &[u8], place: usize) -> Result<(), Failed> {
    let mut at = place;
    // Until the reader stays: there is no count.
    loop {
        let part = reader_shows(bundle, at);
        let next = reader_moves(bundle, at);
        print_step(to, name, part.len(), next)?;
        if next == at {
            return Ok(());
        }
        at = next;
    }
}

fn print(to: Streams) -> Result<(), Failed> {
    read(to, b"one", &MANY[..21], 0)?;
    read(to, b"many", &MANY, 0)?;
    read(to, b"empty", &MANY[..0], 0)?;
    read(to, b"cut-in-the-field", &MANY[..24], 0)?;
    read(to, b"cut-in-the-body", &MANY[..60], 0)?;
    read(to, b"nothing-but-a-cut", &MANY[..20], 0)?;
    read(to, b"all-ones", &ONES, 0)?;
    read(to, b"fields-alone", &ZEROS, 0)?;
    read(to, b"from-the-second", &MANY, 21)?;
    read(to, b"at-the-end", &MANY, 61)?;
    read(to, b"past-the-end", &MANY, 62)?;
    read(to, b"far-past-the-end", &MANY, 18446744073709551615)
}

fn main(rt: HostRuntime) {
    // What fails has said so itself.
    let _ = print(streams_of(&rt));
}
