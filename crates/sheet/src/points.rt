// Where inputs point: the first row, and in it the first input, that points to none of so many rows of a sheet or of a store.
ghost use Rattle.std.specs.Prelude.{◌≡◌, ◌≤◌, ◌<◌, length};
ghost use Rattle.sheet.specs.Format.{start};
ghost use Rattle.sheet.specs.Points.{points_to, rows_point};

use crate::field::{byte, two};

// The first number that is a row of the store and not of the sheet.
pub const STORE_NUMBERS: usize = 32768;

pub fn points_to(rows: usize, stored: usize, x: usize) -> bool
    ensures { result ≡ points_to rows stored x }
{
    if x < STORE_NUMBERS {
        x < rows
    } else {
        x - STORE_NUMBERS < stored
    }
}

// Rows are scanned for an input that is neither below the limit nor a row of the store, and the place of the first is given: with the sheet's
// own rows for the limit it points nowhere, with 32,768 and no store it names a row of a store.
// Asks: the rows end within the bytes. The register shows it of a readable sheet.
pub fn inputs_point(b: &[u8], rows: usize, limit: usize, stored: usize) -> Option<usize>
    requires { start b.now rows ≤ length b.now }
    ensures { result ≡ rows_point b.now limit stored rows 7 }
{
    let mut at = 7;
    for i in 0..rows {
        let count = byte(b, at + 4);
        at += 5;
        for j in 0..count {
            if !points_to(limit, stored, two(b, at)) {
                return Some(at);
            }
            at += 2;
        }
    }
    None
}
