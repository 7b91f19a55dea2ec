// Runs the examples of inserting: each line has the number, the rows added, the answer list and the store as the insert left them.
#![tactic(auto)]

use register::{Inserted, check, convert, insert};
use standard::{Failed, Streams, streams_of, write, write_number};

// A hold in one turn, and in two.
const A: [u8; 14] = [0, 0, 0, 10, 1, 0, 1, 0, 6, 0, 0, 1, 0, 0];

const B: [u8; 21] = [
    0, 0, 0, 17, 1, 0, 2, 0, 6, 0, 0, 1, 0, 1, 0, 6, 0, 0, 1, 0, 0,
];

// Channel 1 less constant 40, the difference first.
const D: [u8; 26] = [
    0, 0, 0, 22, 1, 0, 3, 0, 3, 0, 0, 2, 0, 1, 0, 2, 0, 1, 0, 1, 0, 0, 2, 0, 40, 0,
];

const EMPTY: [u8; 7] = [0, 0, 0, 3, 1, 0, 0];

const CHANNEL: [u8; 12] = [0, 0, 0, 8, 1, 0, 1, 0, 1, 0, 1, 0];

// Old sheets: a difference of rows 0 and 1 of the store, and of rows 1 and 0.
const KNOWN: [u8; 16] = [0, 0, 0, 12, 1, 0, 1, 0, 3, 0, 0, 2, 128, 0, 128, 1];

const TURNED: [u8; 16] = [0, 0, 0, 12, 1, 0, 1, 0, 3, 0, 0, 2, 128, 1, 128, 0];

// A with a byte too many, with version 2, and with an input that points nowhere.
const LONG: [u8; 15] = [0, 0, 0, 10, 1, 0, 1, 0, 6, 0, 0, 1, 0, 0, 0];

const SECOND: [u8; 14] = [0, 0, 0, 10, 2, 0, 1, 0, 6, 0, 0, 1, 0, 0];

const ASTRAY: [u8; 14] = [0, 0, 0, 10, 1, 0, 1, 0, 6, 0, 0, 1, 0, 1];

const FIVE: [u8; 22] = [
    0, 0, 0, 18, 1, 0, 1, 0, 6, 0, 0, 5, 0, 0, 0, 0, 0, 0, 0, 0, 0, 0,
];

fn number(to: Streams, n: u32) -> Result<(), Failed> {
    write(to, Ok(()), b" ")?;
    write_number(to, Ok(()), u64::from(n))
}

fn words(to: Streams, list: &[u32]) -> Result<(), Failed> {
    write(to, Ok(()), b" |")?;
    for n in list {
        number(to, *n)?;
    }
    Ok(())
}

// The number, the rows added and the place.
fn result(to: Streams, done: Inserted) -> Result<(), Failed> {
    number(to, done.number)?;
    number(to, done.added)?;
    write(to, Ok(()), b" ")?;
    write_number(to, Ok(()), done.place as u64)
}

fn run(
    to: Streams,
    name: &[u8],
    store: &mut [u32],
    sheet: &[u8],
    answers: &mut [u32],
) -> Result<(), Failed> {
    let done = insert(store, sheet, answers);
    write(to, Ok(()), name)?;
    result(to, done)?;
    words(to, answers)?;
    words(to, store)?;
    write(to, Ok(()), b"\n")
}

// An old sheet is refused, converted beside the store it was drawn against, and then inserted.
fn run_old(
    to: Streams,
    name: &[u8],
    store: &mut [u32],
    sheet: &[u8],
    answers: &mut [u32],
) -> Result<(), Failed> {
    let mut out = [0u8; 26];
    run(to, b"old", store, sheet, answers)?;
    let done = convert(store, sheet, &mut out);
    write(to, Ok(()), b"converted")?;
    number(to, done.number)?;
    write(to, Ok(()), b" ")?;
    write_number(to, Ok(()), done.bytes as u64)?;
    write(to, Ok(()), b" ")?;
    write_number(to, Ok(()), done.place as u64)?;
    write(to, Ok(()), b"\n")?;
    run(to, name, store, &out, answers)
}

// A store of 7 words: A, then B, then a lone channel for which there is no room.
fn run_seven(to: Streams) -> Result<(), Failed> {
    let mut store = [0u32; 7];
    let mut single = [9u32; 1];
    let mut answers = [9u32; 2];
    run(to, b"short", &mut store, &B, &mut single)?;
    run(to, b"A", &mut store, &A, &mut answers)?;
    run(to, b"B", &mut store, &B, &mut answers)?;
    run(to, b"full", &mut store, &CHANNEL, &mut answers)
}

// Store numbers in a sheet.
fn run_difference(to: Streams) -> Result<(), Failed> {
    let mut store = [
        3u32, 65537, 0, 0, 0, 0, 0, 131112, 0, 0, 0, 0, 0, 196608, 2, 0, 1, 0, 0, 0, 0, 0, 0, 0, 0,
    ];
    let mut answers = [9u32; 3];
    run_old(to, b"known", &mut store, &KNOWN, &mut answers)?;
    run_old(to, b"turned", &mut store, &TURNED, &mut answers)
}

// D into an empty store that it fills.
fn run_d(to: Streams) -> Result<(), Failed> {
    let mut store = [0u32; 19];
    let mut answers = [9u32; 4];
    run(to, b"D", &mut store, &D, &mut answers)
}

// Stores of no words and of capacity 0, one with two holds, and one with rubbish past its rows.
fn run_stores(to: Streams) -> Result<(), Failed> {
    let mut nothing = [0u32; 0];
    let mut one = [0u32; 1];
    let mut six = [0u32, 5, 5, 5, 5, 5];
    let mut holds = [2u32, 393216, 1, 0, 0, 0, 0, 393216, 1, 1, 0, 0, 0];
    let mut rubbish = [0u32, 7, 7, 7, 7, 7, 7, 7, 7, 7, 7, 7, 7];
    let mut answers = [9u32; 1];
    run(to, b"nothing", &mut nothing, &A, &mut answers)?;
    run(to, b"empty", &mut one, &EMPTY, &mut answers)?;
    run(to, b"empty", &mut six, &EMPTY, &mut answers)?;
    run(to, b"none", &mut six, &A, &mut answers)?;
    run(to, b"twice", &mut holds, &A, &mut answers)?;
    run(to, b"rubbish", &mut rubbish, &A, &mut answers)?;
    write(to, Ok(()), b"check")?;
    number(to, check(&holds))?;
    write(to, Ok(()), b"\n")
}

// Sheets that cannot be read.
fn run_sheets(to: Streams) -> Result<(), Failed> {
    let mut store = [0u32, 7, 7, 7, 7, 7, 7];
    let mut answers = [9u32; 1];
    run(to, b"no-bytes", &mut store, &A[..0], &mut answers)?;
    run(to, b"cut", &mut store, &A[..13], &mut answers)?;
    run(to, b"long", &mut store, &LONG, &mut answers)?;
    run(to, b"version", &mut store, &SECOND, &mut answers)?;
    run(to, b"five", &mut store, &FIVE, &mut answers)?;
    run(to, b"astray", &mut store, &ASTRAY, &mut answers)
}

// A store of 6,200 words, which are not printed.
fn run_large(to: Streams) -> Result<(), Failed> {
    let mut store = [0u32; 6200];
    let mut answers = [9u32; 3];
    let done = insert(&mut store, &D, &mut answers);
    write(to, Ok(()), b"large")?;
    result(to, done)?;
    words(to, &answers)?;
    write(to, Ok(()), b"\n")
}

fn run_all(to: Streams) -> Result<(), Failed> {
    run_seven(to)?;
    run_difference(to)?;
    run_d(to)?;
    run_stores(to)?;
    run_sheets(to)?;
    run_large(to)
}

fn main(rt: HostRuntime) {
    // What fails has said so itself.
    let _ = run_all(streams_of(&rt));
}
