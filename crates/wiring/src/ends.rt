// Whether the jumps end: one that is still a wire is on the way round a loop of wires.
ghost use Rattle.std.specs.Prelude.{◌<◌, length};
ghost use Rattle.rules.specs.Answers.{Says};
ghost use Rattle.sheet.specs.Format.{store_numbers};
ghost use Rattle.wires.specs.Wires.{Wire};
ghost use Rattle.rows.specs.Named.{named};
ghost use Rattle.wiring.specs.Placed.{Placed};
ghost use Rattle.wiring.specs.Jumps.{JumpsThere};
ghost use Rattle.wiring.specs.Told.{EndSays};

use crate::first::wire_at;
use sheet::points::STORE_NUMBERS;

// Whether a jump is a wire. No row of the store is one.
fn astray(bytes: &[u8], table: &[u16], jump: usize) -> bool
    requires placed { Placed bytes.now table.now }
    requires of_sheet { jump < store_numbers → jump < length table.now }
    ensures { Says (Wire (named bytes.now) jump) result }
{
    if jump < STORE_NUMBERS {
        return wire_at(bytes, table, jump);
    }
    false
}

// Whether no jump is a wire.
// Asks: the table of row places of a readable sheet, and jumps that name rows.
pub fn all_end(bytes: &[u8], table: &[u16], jumps: &[u16]) -> bool
    requires { Placed bytes.now table.now × JumpsThere (length table.now) jumps.now }
    ensures { EndSays bytes.now (length table.now) jumps.now result }
{
    for &jump in &jumps[..table.len()] {
        if astray(bytes, table, jump as usize) {
            return false;
        }
    }
    true
}
