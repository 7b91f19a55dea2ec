// Widening an old store.
ghost use Rattle.std.specs.Prelude.{◌≤◌};
ghost use Rattle.rules.specs.Lists.{widest};
ghost use Rattle.widens.specs.Widened.{WidenSays};
ghost use Rattle.widening.specs.Steps.{OldSound};

use crate::look::look_at;
use crate::puts::put_all;
use store::capacity::capacity_of;

// A sound old store: 21 where the target has no room for its rows.
fn widen_sound(old: &[u32], from: usize, target: &mut [u32], to: usize, rows: usize) -> u32
    requires { (from ≤ to) × (to ≤ widest) × OldSound from old.now rows }
    ensures { WidenSays from to old.now target.old result target.new }
{
    let Some(capacity) = capacity_of(target.len(), to) else {
        return 21;
    };
    if capacity < rows {
        return 21;
    }
    put_all(old, from, target, to, rows);
    0
}

// Numbers 1, 2 and 21, the first that applies, and then no word of the target changes; or 0, and each row of the old store stands in the
// target at its number.
// Asks: a row of the target has room for as many inputs as an old one, and for at most 4. Callers pass the layouts.
pub fn widen(old: &[u32], from: usize, target: &mut [u32], to: usize) -> u32
    requires { (from ≤ to) × (to ≤ widest) }
    ensures { WidenSays from to old.now target.old result target.new }
{
    match look_at(old, from) {
        Err(flaw) => flaw.number(),
        Ok(rows) => widen_sound(old, from, target, to, rows),
    }
}
