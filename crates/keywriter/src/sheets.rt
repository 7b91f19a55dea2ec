// The key as a sheet: its length, its head and its rows.
ghost use Rattle.std.specs.Prelude.{◌≡◌, ◌∷◌, ◌++◌, ◌+◌, ◌-◌, ◌*◌, ◌≤◌, ◌<◌, length};
ghost use Rattle.rules.specs.Writes.{over_front, Wrote};
ghost use Rattle.keys.specs.Bytes.{bytes16, bytes32, inputs_bytes, row_bytes, rows_bytes, sheet_bytes, longest_sheet};
ghost use Rattle.keywriter.specs.Asked.{HeldIn, key_in};

use crate::bytes::{put_five, put_two};
use crate::reads::{Walked, key_count, key_input, key_label};

// The inputs of row k of the key, from the left.
fn write_inputs(walked: &Walked, key: &mut [u8], at: usize, k: usize, count: usize) -> usize
    requires { HeldIn walked.now ×
        (k < walked.now.filled) ×
        (count ≡ (key_in walked.now).count k) ×
        (at + 2 * count ≤ length key.old) }
    ensures { Wrote key.old at (inputs_bytes (key_in walked.now) k count) key.new result }
{
    let mut to = at;
    for j in 0..count {
        let x = key_input(walked, k, j);
        to = put_two(key, to, x);
    }
    to
}

// Row k of the key.
fn write_row(walked: &Walked, key: &mut [u8], at: usize, k: usize) -> usize
    requires { HeldIn walked.now ×
        (k < walked.now.filled) ×
        (at + length (row_bytes (key_in walked.now) k) ≤ length key.old) }
    ensures { Wrote key.old at (row_bytes (key_in walked.now) k) key.new result }
{
    let label = key_label(walked, k);
    let count = key_count(walked, k);
    let past = put_five(key, at, label, count);
    write_inputs(walked, key, past, k, count)
}

// The rows of the key, in the order of the queue.
fn write_rows(walked: &Walked, key: &mut [u8], at: usize) -> usize
    requires { HeldIn walked.now ×
        (at + length (rows_bytes (key_in walked.now) walked.now.filled) ≤ length key.old) }
    ensures { Wrote key.old at (rows_bytes (key_in walked.now) walked.now.filled) key.new result }
{
    let mut to = at;
    for k in 0..walked.filled {
        to = write_row(walked, key, to, k);
    }
    to
}

// The head of a sheet: the length of what follows the length, the version and the count of rows.
// Asks: the sheet's length, which is at least a head's and has 16 bits, room for it, and a count of 16 bits.
pub fn write_head(key: &mut [u8], need: usize, filled: usize) -> usize
    requires { (7 ≤ need) × (need < 65536) × (need ≤ length key.old) × (filled < 65536) }
    ensures { Wrote key.old 0 (bytes32 (need - 4) ++ (1 ∷ bytes16 filled)) key.new result }
{
    let past = put_five(key, 0, need - 4, 1);
    put_two(key, past, filled)
}

// Bytes past the sheet stand.
// Asks: a finished walk over a shaped store, the length of its key, and room for it. `sheet_length` gives the length.
pub fn write_sheet(walked: &Walked, need: usize, key: &mut [u8])
    requires held { HeldIn walked.now }
    requires need_value { (need ≡ length (sheet_bytes (key_in walked.now) walked.now.filled)) ×
        (need ≤ length key.old) }
    ensures { key.new ≡ over_front (sheet_bytes (key_in walked.now) walked.now.filled) key.old }
{
    let past = write_head(key, need, walked.filled);
    write_rows(walked, key, past);
}

// The length of the key: a head of 7 bytes, and for each row 5 and two for each input.
// Asks: a finished walk over a shaped store.
pub fn sheet_length(walked: &Walked) -> usize
    requires { HeldIn walked.now }
    ensures { (result ≡ length (sheet_bytes (key_in walked.now) walked.now.filled)) ×
        (result ≤ longest_sheet) }
{
    let mut total = 7;
    for i in 0..walked.filled {
        let count = key_count(walked, i);
        total += 5 + 2 * count;
    }
    total
}
