// Whether no row of a sheet is a wire: a key holds none.
ghost use Rattle.std.specs.Prelude.{length};
ghost use Rattle.rules.specs.Answers.{Says};
ghost use Rattle.wires.specs.Wires.{Plain};
ghost use Rattle.wiring.specs.Placed.{Placed};
ghost use Rattle.keys.specs.Sheets.{sheet_graph};

use wiring::first::wire_at;

// Asks: the table of row places of a readable sheet.
pub fn all_plain(bytes: &[u8], table: &[u16]) -> bool
    requires { Placed bytes.now table.now }
    ensures { Says (Plain (sheet_graph bytes.now) (length table.now)) result }
{
    let n = table.len();
    for i in 0..n {
        if wire_at(bytes, table, i) {
            return false;
        }
    }
    true
}
