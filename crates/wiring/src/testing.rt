// The wires of a sheet told: 14 before 15, or where each row is read.
ghost use Rattle.std.specs.Prelude.{◌≤◌, length};
ghost use Rattle.wiring.specs.Placed.{Placed};
ghost use Rattle.wiring.specs.Jumps.{JumpsThere};
ghost use Rattle.wiring.specs.Told.{Followed, WiresSay};

use crate::ends::all_end;
use crate::first::fill_jumps;
use crate::passes::double_all;

// Numbers 14 and 15: a wire without exactly one input, and a loop of wires.
#[derive(Clone, Copy, Debug, PartialEq, Eq)]
pub enum WireFault {
    Short,
    Looped,
}

// All passes, and whether every jump ends.
fn lead_out(bytes: &[u8], table: &[u16], jumps: &mut [u16]) -> bool
    requires { Placed bytes.now table.now × JumpsThere (length table.now) jumps.old }
    ensures { Followed bytes.now (length table.now) jumps.old jumps.new result }
{
    double_all(jumps, table.len());
    all_end(bytes, table, jumps)
}

// Asks: the table of row places of a readable sheet whose inputs all point somewhere, and an entry of the jumps for each row.
pub fn test_wires(bytes: &[u8], table: &[u16], jumps: &mut [u16]) -> Result<(), WireFault>
    requires { Placed bytes.now table.now × (length table.now ≤ length jumps.old) }
    ensures { WiresSay bytes.now (length table.now) jumps.new result }
{
    if !fill_jumps(bytes, table, jumps) {
        return Err(WireFault::Short);
    }
    if !lead_out(bytes, table, jumps) {
        return Err(WireFault::Looped);
    }
    Ok(())
}
