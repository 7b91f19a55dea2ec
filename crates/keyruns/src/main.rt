// Runs the key examples of the rules through the operations: keys written, keys tested, one loop drawn in many turns, and two stores of the same trees.
#![tactic(auto)]

use keying::Written;
use register::{check, compare, insert, is_key, part_of, write_key};
use standard::{Failed, Streams, streams_of, write, write_number};

// A hold in one turn, and in two.
const A: [u8; 14] = [0, 0, 0, 10, 1, 0, 1, 0, 6, 0, 0, 1, 0, 0];

const B: [u8; 21] = [
    0, 0, 0, 17, 1, 0, 2, 0, 6, 0, 0, 1, 0, 1, 0, 6, 0, 0, 1, 0, 0,
];

// Channel 1 less constant 40, the difference first.
const D: [u8; 26] = [
    0, 0, 0, 22, 1, 0, 3, 0, 3, 0, 0, 2, 0, 1, 0, 2, 0, 1, 0, 1, 0, 0, 2, 0, 40, 0,
];

const EMPTY: [u8; 7] = [0, 0, 0, 3, 1, 0, 0];

// Rows 0, 1, 2: channel 1, constant 40, their difference.
const STORE: [u32; 19] = [
    3, 65537, 0, 0, 0, 0, 0, 131112, 0, 0, 0, 0, 0, 196608, 2, 0, 1, 0, 0,
];

fn number(to: Streams, n: u64) -> Result<(), Failed> {
    write(to, Ok(()), b" ")?;
    write_number(to, Ok(()), n)
}

// The number given back, and the bytes written.
fn key_written(to: Streams, w: Written) -> Result<(), Failed> {
    number(to, u64::from(w.number))?;
    number(to, w.bytes as u64)
}

fn either(to: Streams, first: bool, a: &[u8], b: &[u8]) -> Result<(), Failed> {
    write(to, Ok(()), b" ")?;
    write(to, Ok(()), if first { a } else { b })
}

fn end(to: Streams) -> Result<(), Failed> {
    write(to, Ok(()), b"\n")
}

// Whether the first n bytes are exactly the others.
fn same(key: &[u8], n: usize, others: &[u8]) -> bool {
    n <= key.len() && &key[..n] == others
}

// Whether every byte is v.
fn all(bytes: &[u8], v: u8) -> bool {
    bytes.iter().all(|b| *b == v)
}

fn put(bytes: &mut [u8], i: usize, v: u8) {
    if i < bytes.len() {
        bytes[i] = v;
    }
}

// The high byte, then the low one.
fn put_two(bytes: &mut [u8], i: u32, v: u16) {
    put(bytes, i as usize, (v / 256) as u8);
    put(bytes, i as usize + 1, (v % 256) as u8);
}

// Row k: a hold of one input.
fn put_hold(sheet: &mut [u8], k: u16, next: u16) {
    let at = 7 + 7 * (k as u32);
    put_two(sheet, at, 6);
    put_two(sheet, at + 2, 0);
    put(sheet, at as usize + 4, 1);
    put_two(sheet, at + 5, next);
}

// The loop in so many turns: how many bytes follow, version 1, the turns, and rows that each hold the next, the last row 0.
fn draw(sheet: &mut [u8], follow: u16, turns: u16) {
    put_two(sheet, 0, 0);
    put_two(sheet, 2, follow);
    put(sheet, 4, 1);
    put_two(sheet, 5, turns);
    for k in 0..turns {
        let next = if k + 1 < turns { k + 1 } else { 0 };
        put_hold(sheet, k, next);
    }
}

// The number, the bytes written, whether they are D, and whether the bytes past them stand.
fn run_key(to: Streams) -> Result<(), Failed> {
    let mut key = [7u8; 64];
    let w = write_key(&STORE, 2, &mut key);
    write(to, Ok(()), b"d-key")?;
    key_written(to, w)?;
    either(to, same(&key, w.bytes, &D), b"same", b"other")?;
    either(to, all(&key[26..], 7), b"stands", b"changed")?;
    end(to)
}

// A buffer one byte shorter than the key, and whether it stands.
fn run_short(to: Streams) -> Result<(), Failed> {
    let mut key = [7u8; 25];
    let w = write_key(&STORE, 2, &mut key);
    write(to, Ok(()), b"short")?;
    key_written(to, w)?;
    either(to, all(&key, 7), b"stands", b"changed")?;
    end(to)
}

// A key refused for its store or row, and whether the buffer stands.
fn run_refused(to: Streams, name: &[u8], store: &[u32], row: u32) -> Result<(), Failed> {
    let mut key = [7u8; 64];
    let w = write_key(store, row, &mut key);
    write(to, Ok(()), name)?;
    key_written(to, w)?;
    either(to, all(&key, 7), b"stands", b"changed")?;
    end(to)
}

fn run_refusals(to: Streams) -> Result<(), Failed> {
    let broken = [9u32; 19];
    run_refused(to, b"no-row", &STORE, 3)?;
    run_refused(to, b"no-words", &STORE[..0], 0)?;
    run_refused(to, b"broken", &broken, 0)?;
    write(to, Ok(()), b"check")?;
    number(to, u64::from(check(&STORE)))?;
    number(to, u64::from(check(&STORE[..0])))?;
    number(to, u64::from(check(&broken)))?;
    end(to)
}

fn run_test(to: Streams, name: &[u8], bytes: &[u8]) -> Result<(), Failed> {
    write(to, Ok(()), name)?;
    either(to, is_key(bytes), b"yes", b"no")?;
    end(to)
}

fn run_tests(to: Streams) -> Result<(), Failed> {
    run_test(to, b"is-key A", &A)?;
    run_test(to, b"is-key B", &B)?;
    run_test(to, b"is-key D", &D)?;
    run_test(to, b"is-key empty", &EMPTY)?;
    run_test(to, b"is-key nothing", &EMPTY[..0])
}

// The loop into an empty store: the turns, the number, the rows added, the bytes of row 0's key, and whether they are A.
fn run_loop(to: Streams, sheet: &[u8], turns: u16) -> Result<(), Failed> {
    let mut store = [0u32; 6145];
    let mut answers = [0u32; 1024];
    let mut key = [0u8; 64];
    let done = insert(&mut store, sheet, &mut answers);
    let w = write_key(&store, answers[0], &mut key);
    write(to, Ok(()), b"turns")?;
    number(to, u64::from(turns))?;
    number(to, u64::from(done.number))?;
    number(to, u64::from(done.added))?;
    number(to, w.bytes as u64)?;
    either(to, same(&key, w.bytes, &A), b"same", b"other")?;
    end(to)
}

// The first n bytes are the sheet.
fn run_drawn(to: Streams, bytes: &[u8], n: usize, turns: u16) -> Result<(), Failed> {
    if n <= bytes.len() {
        return run_loop(to, &bytes[..n], turns);
    }
    Ok(())
}

// At most 512 turns: seven bytes each, after a head of seven.
fn run_turns(to: Streams, turns: u16) -> Result<(), Failed> {
    let mut sheet = [0u8; 3591];
    if turns <= 512 {
        draw(&mut sheet, 3 + 7 * turns, turns);
        return run_drawn(to, &sheet, 7 + 7 * (turns as usize), turns);
    }
    Ok(())
}

// A row of each store with the same tree, the bytes of the key, and whether both keys are the same bytes.
fn print_pair(
    to: Streams,
    first: &[u32],
    row: u32,
    second: &[u32],
    other: u32,
) -> Result<(), Failed> {
    let mut one = [0u8; 64];
    let mut two = [0u8; 64];
    let w = write_key(first, row, &mut one);
    let v = write_key(second, other, &mut two);
    write(to, Ok(()), b"pair")?;
    number(to, u64::from(row))?;
    number(to, u64::from(other))?;
    number(to, w.bytes as u64)?;
    let alike = w.bytes == v.bytes && same(&one, 64, &two);
    either(to, alike, b"same", b"other")?;
    end(to)
}

fn run_row(to: Streams, first: &[u32], row: u32, second: &[u32]) -> Result<(), Failed> {
    for other in 0..4 {
        if compare(first, row, second, other).yes {
            print_pair(to, first, row, second, other)?;
        }
    }
    Ok(())
}

fn run_rows(to: Streams, first: &[u32], second: &[u32]) -> Result<(), Failed> {
    for row in 0..4 {
        run_row(to, first, row, second)?;
    }
    Ok(())
}

// Two stores of four rows each, by the two orders of B and D.
fn run_pairs(to: Streams) -> Result<(), Failed> {
    let mut first = [0u32; 25];
    let mut second = [0u32; 25];
    let mut answers = [0u32; 3];
    insert(&mut first, &B, &mut answers);
    insert(&mut first, &D, &mut answers);
    insert(&mut second, &D, &mut answers);
    insert(&mut second, &B, &mut answers);
    run_rows(to, &first, &second)
}

fn run_part(to: Streams, part: u32, whole: u32) -> Result<(), Failed> {
    let r = part_of(&STORE, part, whole);
    write(to, Ok(()), b"part")?;
    number(to, u64::from(part))?;
    number(to, u64::from(whole))?;
    number(to, u64::from(r.number))?;
    either(to, r.yes, b"yes", b"no")?;
    end(to)
}

fn run_all(to: Streams) -> Result<(), Failed> {
    run_key(to)?;
    run_short(to)?;
    run_refusals(to)?;
    run_tests(to)?;
    for turns in [1u16, 2, 3, 512] {
        run_turns(to, turns)?;
    }
    run_pairs(to)?;
    run_part(to, 0, 2)?;
    run_part(to, 2, 0)?;
    run_part(to, 2, 2)?;
    run_part(to, 1, 3)
}

fn main(rt: HostRuntime) {
    // What fails has said so itself.
    let _ = run_all(streams_of(&rt));
}
