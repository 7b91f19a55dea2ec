// A row at a place: read whole, or not at all; and its inputs one by one.
ghost use Rattle.std.specs.Prelude.{◌≡◌, ◌+◌, ◌*◌, ◌≤◌, ◌<◌, length};
ghost use Rattle.sheet.specs.Format.{input_at};
ghost use Rattle.sheet.specs.Read.{row_at};

use crate::field::{byte, four, two};

// What is read of a row, and where the one behind it starts.
#[derive(Clone, Copy, Debug, PartialEq, Eq)]
pub struct RowRead {
    pub label: u32,
    pub count: usize,
    pub next: usize,
}

// Where the row has too many inputs, or ends past the bytes, the place of the fault: its own.
pub fn read_row(b: &[u8], most: usize, at: usize) -> Result<RowRead, usize>
    ensures { result ≡ row_at b.now most at }
{
    let length = b.len();
    if length < 5 {
        return Err(at);
    }
    if length - 5 < at {
        return Err(at);
    }
    let count = byte(b, at + 4);
    if most < count {
        return Err(at);
    }
    let next = at + 5 + 2 * count;
    if length < next {
        return Err(at);
    }
    Ok(RowRead {
        label: four(b, at) as u32,
        count,
        next,
    })
}

// Asks: the row ends within the bytes, and has the input. The register shows it of rows of a readable sheet.
pub fn input(b: &[u8], at: usize, count: usize, j: usize) -> usize
    requires { (at + 5 + 2 * count ≤ length b.now) × (j < count) }
    ensures { (result ≡ input_at b.now at j) × (result < 65536) }
{
    two(b, at + 5 + 2 * j)
}
