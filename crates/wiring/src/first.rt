// The jumps at first: for each row of the sheet the row that one wire leads to, in the sheet's own numbers; itself if it is no wire.
ghost use Rattle.std.specs.Prelude.{◌≤◌, ◌<◌, length};
ghost use Rattle.rules.specs.Answers.{Says};
ghost use Rattle.wires.specs.Wires.{Wire};
ghost use Rattle.rows.specs.Named.{named};
ghost use Rattle.wiring.specs.Placed.{Placed};
ghost use Rattle.wiring.specs.Told.{LedSays, FillSays};

use rows::{entry, put_entry};
use sheet::field::{byte, four};
use sheet::row::input;
use wires::is_wire;

// Whether row i of the sheet is a wire.
// Asks: the table of row places of a readable sheet, and a row of it.
pub fn wire_at(bytes: &[u8], table: &[u16], i: usize) -> bool
    requires { Placed bytes.now table.now × (i < length table.now) }
    ensures { Says (Wire (named bytes.now) i) result }
{
    is_wire(four(bytes, entry(table, i)) as u32)
}

// Where the input of the wire at row i leads; nothing where it has not exactly one.
fn wire_leads(bytes: &[u8], table: &[u16], i: usize) -> Option<usize>
    requires placed { Placed bytes.now table.now × (i < length table.now) }
    requires wire { Wire (named bytes.now) i }
    ensures { LedSays bytes.now i result }
{
    let at = entry(table, i);
    if byte(bytes, at + 4) != 1 {
        return None;
    }
    Some(input(bytes, at, 1, 0))
}

// Where one wire leads from row i; nothing where row i is a wire without exactly one input.
fn row_leads(bytes: &[u8], table: &[u16], i: usize) -> Option<usize>
    requires { Placed bytes.now table.now × (i < length table.now) }
    ensures { LedSays bytes.now i result }
{
    if wire_at(bytes, table, i) {
        return wire_leads(bytes, table, i);
    }
    Some(i)
}

// The jumps filled, or false at a wire without exactly one input.
// Asks: the table of row places of a readable sheet, and an entry for each row.
pub fn fill_jumps(bytes: &[u8], table: &[u16], jumps: &mut [u16]) -> bool
    requires { Placed bytes.now table.now × (length table.now ≤ length jumps.old) }
    ensures { FillSays bytes.now (length table.now) jumps.new result }
{
    let n = table.len();
    for i in 0..n {
        let Some(x) = row_leads(bytes, table, i) else {
            return false;
        };
        put_entry(jumps, i, x);
    }
    true
}
