// The table of row places: an index of the sheet's rows, and no copy of the sheet.
ghost use Rattle.std.specs.Prelude.{◌≡◌, ◌≤◌, ◌<◌, length};
ghost use Rattle.rules.specs.Lists.{firsts};
ghost use Rattle.rules.specs.Writes.{over_front};
ghost use Rattle.sheet.specs.Format.{start};

use crate::field::byte;

// Asks: the rows end within the bytes, below 65,536, and the table has an entry for each. The register shows it of a readable sheet.
pub fn fill_places(b: &[u8], rows: usize, table: &mut [u16])
    requires { (start b.now rows ≤ length b.now) × (start b.now rows < 65536) × (rows ≤ length table.old) }
    ensures { table.new ≡ over_front (firsts (start b.now) rows) table.old }
{
    let mut at = 7;
    for i in 0..rows {
        table[i] = at as u16;
        at = at + 5 + 2 * byte(b, at + 4);
    }
}
