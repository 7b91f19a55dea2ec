// A sheet read: how many rows it has, or its fault.
ghost use Rattle.std.specs.Prelude.{◌≡◌, ◌≤◌, ◌<◌, length};
ghost use Rattle.sheet.specs.Format.{row_count_of};
ghost use Rattle.sheet.specs.Read.{rows_from, read_sheet};

use crate::fault::Fault;
use crate::field::{byte, four, two};
use crate::row::read_row;
use crate::version::limit_of;

// Rows a sheet may have.
pub const MOST_ROWS: usize = 1024;

// The rows one after another: the first that cannot be read ends the reading.
fn read_rows(b: &[u8], most: usize, rows: usize) -> Result<usize, Fault>
    requires { rows ≡ row_count_of b.now }
    ensures { result ≡ rows_from b.now most rows 7 }
{
    let mut at = 7;
    for i in 0..rows {
        let Ok(row) = read_row(b, most, at) else {
            return Err(Fault::new(5, at));
        };
        at = row.next;
    }
    if at == b.len() {
        Ok(rows)
    } else {
        Err(Fault::new(5, at))
    }
}

// How many rows a sheet says it has.
// Asks: its head is there.
pub fn row_count(bytes: &[u8]) -> usize
    requires { 7 ≤ length bytes.now }
    ensures { result ≡ row_count_of bytes.now }
{
    two(bytes, 5)
}

pub fn read_sheet(b: &[u8]) -> Result<usize, Fault>
    ensures { result ≡ read_sheet b.now }
{
    let length = b.len();
    if length < 7 {
        return Err(Fault::new(3, 0));
    }
    if four(b, 0) != length - 4 {
        return Err(Fault::new(3, 0));
    }
    let Some(most) = limit_of(byte(b, 4)) else {
        return Err(Fault::new(4, 4));
    };
    let rows = two(b, 5);
    if MOST_ROWS < rows {
        return Err(Fault::new(5, 5));
    }
    read_rows(b, most, rows)
}
