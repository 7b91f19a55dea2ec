// Row u of a store and a sheet joined, by value. Nothing else reads memory while rows are sorted, and nothing is copied.
#![tactic(auto)]

ghost use Rattle.std.specs.Prelude.{◌≡◌, ◌+◌, ◌*◌, ◌≤◌, ◌<◌, length, get_or, set};
ghost use Rattle.rules.specs.Lists.{in_room, widest};
ghost use Rattle.rows.specs.Joined.{leads_to, resolved_at, resolved_or};
ghost use Rattle.rows.specs.SheetRow.{SheetRowThere, sheet_row};

pub mod viewing;

use sheet::field::{byte, four};
use sheet::points::STORE_NUMBERS;
use sheet::row::input;
use store::row::{ROOM, Row};

// Rows of a store and a sheet together.
pub const JOINED_ROWS: usize = 2048;

// Asks: a store has at most 1,024 rows, and an input of a sheet has 16 bits.
pub fn leads_to(stored: usize, x: usize) -> usize
    requires { (stored ≤ 1024) × (x < 65536) }
    ensures { (result ≡ leads_to stored x) × (result < 65536) }
{
    if x < STORE_NUMBERS {
        stored + x
    } else {
        x - STORE_NUMBERS
    }
}

// Where input j of the sheet row at a place leads, or 0 where the row has no such input.
fn resolved(bytes: &[u8], stored: usize, at: usize, count: usize, j: usize) -> u32
    requires { (at + 5 + 2 * count ≤ length bytes.now) × (stored ≤ 1024) }
    ensures { result ≡ resolved_or bytes.now stored at count j }
{
    if j < count {
        return leads_to(stored, input(bytes, at, count, j)) as u32;
    }
    0
}

// The inputs of the sheet row at a place, each as the row of the view that it leads to, and zero past them.
// The loop goes to the room and not to the count: the compiler then keeps them in registers.
fn sheet_inputs(bytes: &[u8], stored: usize, at: usize, count: usize) -> [u32; ROOM]
    requires { (at + 5 + 2 * count ≤ length bytes.now) × (count ≤ widest) × (stored ≤ 1024) }
    ensures { result ≡ in_room widest (resolved_at bytes.now stored at) count }
{
    let mut found = [0u32; ROOM];
    for j in 0..ROOM {
        found[j] = resolved(bytes, stored, at, count, j);
    }
    found
}

// The sheet row at a place, with each input as the row of the view that it leads to.
// Asks: the row is there, with no more inputs than any row has. The view shows it of its sheet rows.
pub fn sheet_row(bytes: &[u8], stored: usize, at: usize) -> Row
    requires { SheetRowThere bytes.now stored at }
    ensures { result ≡ sheet_row bytes.now stored at }
{
    let count = byte(bytes, at + 4);
    Row {
        label: four(bytes, at) as u32,
        count: count as u32,
        inputs: sheet_inputs(bytes, stored, at, count),
    }
}

// The entry at a place of a table, classes, marks or links: the one reader of them.
// Asks: there is an entry at the place.
pub fn entry(list: &[u16], i: usize) -> usize
    requires { i < length list.now }
    ensures { (result ≡ get_or list.now i 0) × (result < 65536) }
{
    list[i] as usize
}

// Asks: an entry at the place, and a number of 16 bits.
pub fn put_entry(list: &mut [u16], i: usize, x: usize)
    requires { (i < length list.old) × (x < 65536) }
    ensures { list.new ≡ set list.old i x }
{
    list[i] = x as u16;
}
