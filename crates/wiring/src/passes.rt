// Passes over the jumps: each takes every jump twice, so eleven of them follow 2,048 wires, more than can follow one another without a loop.
ghost use Rattle.std.specs.Prelude.{◌≡◌, ◌<◌, get_or};
ghost use Rattle.wiring.specs.Jumps.{JumpsThere, onward_of, Doubled, AllDoubled};

use rows::{entry, put_entry};
use sheet::points::STORE_NUMBERS;

// 2 to the 11th is 2,048.
const PASSES: usize = 11;

// Where the jump of row i leads on.
fn onward(jumps: &[u16], rows: usize, i: usize) -> usize
    requires { JumpsThere rows jumps.now × (i < rows) }
    ensures { (result ≡ onward_of jumps.now (get_or jumps.now i 0)) × (result < 65536) }
{
    let x = entry(jumps, i);
    if x < STORE_NUMBERS {
        return entry(jumps, x);
    }
    x
}

// One pass, in place: the old and the new entry of a row are both jumps, so it does not matter which one is met.
// Asks: jumps that name rows.
pub fn double(jumps: &mut [u16], rows: usize)
    requires { JumpsThere rows jumps.old }
    ensures { JumpsThere rows jumps.new × Doubled rows jumps.old jumps.new }
{
    for i in 0..rows {
        let x = onward(jumps, rows, i);
        put_entry(jumps, i, x);
    }
}

// All passes.
// Asks: jumps that name rows.
pub fn double_all(jumps: &mut [u16], rows: usize)
    requires { JumpsThere rows jumps.old }
    ensures { JumpsThere rows jumps.new × AllDoubled rows jumps.old jumps.new }
{
    for k in 0..PASSES {
        double(jumps, rows);
    }
}
