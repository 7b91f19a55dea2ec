// Whether an old store is sound in its own layout.
ghost use Rattle.std.specs.Prelude.{◌≡◌, ◌≤◌, length};
ghost use Rattle.rules.specs.Lists.{widest};
ghost use Rattle.rules.specs.Answers.{Says};
ghost use Rattle.trees.specs.Agreement.{Minimal};
ghost use Rattle.store.specs.Layout.{in_use, store_graph};
ghost use Rattle.widening.specs.Steps.{OldShaped, LookedSays};

use classes::alone::all_distinct;
use store::capacity::MOST_ROWS;
use store::shape::{Flaw, shape_of};

// Whether no two rows have the same tree.
fn distinct(old: &[u32], from: usize, rows: usize) -> bool
    requires { OldShaped from old.now rows }
    ensures { Says (Minimal (store_graph from old.now) (in_use old.now)) result }
{
    let mut cls = [0u16; MOST_ROWS];
    all_distinct(old, from, rows, &mut cls)
}

// The rows in use of a sound old store.
// Asks: a row has room for at most 4 inputs. Callers pass the old layout's.
pub fn look_at(old: &[u32], from: usize) -> Result<usize, Flaw>
    requires { from ≤ widest }
    ensures { LookedSays from old.now result }
{
    let rows = shape_of(old, from)?;
    if distinct(old, from, rows) {
        Ok(rows)
    } else {
        Err(Flaw::Broken)
    }
}
