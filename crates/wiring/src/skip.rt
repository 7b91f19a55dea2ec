// The table of row places turned into the table of where each row is read.
ghost use Rattle.std.specs.Prelude.{◌≡◌, ◌<◌, length};
ghost use Rattle.wiring.specs.Spots.{spot_of, Settled, Skipped};

use rows::{entry, put_entry};

// Where row i is read: the place of the row that its jump names.
fn spot_at(table: &[u16], jumps: &[u16], i: usize) -> usize
    requires { Settled (length table.now) jumps.now × (i < length table.now) }
    ensures { (result ≡ spot_of table.now jumps.now i) × (result < 65536) }
{
    let x = entry(jumps, i);
    entry(table, x)
}

// In place, since a row that a jump names keeps its entry.
// Asks: jumps that name rows whose own jump stays.
pub fn skip(table: &mut [u16], jumps: &[u16])
    requires { Settled (length table.old) jumps.now }
    ensures { Skipped table.old jumps.now table.new }
{
    let n = table.len();
    for i in 0..n {
        let at = spot_at(table, jumps, i);
        put_entry(table, i, at);
    }
}
