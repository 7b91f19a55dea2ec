// Whether no two rows of a store alone have the same tree.
ghost use Rattle.std.specs.Prelude.{◌≡◌, ◌≤◌, length};
ghost use Rattle.rules.specs.Lists.{widest};
ghost use Rattle.rules.specs.Answers.{Says};
ghost use Rattle.trees.specs.Agreement.{Minimal};
ghost use Rattle.store.specs.Sound.{Shaped};
ghost use Rattle.store.specs.Layout.{in_use, store_graph};

use crate::own::all_own;
use crate::sort::sort;
use rows::viewing::View;

// The store alone is the view without a sheet.
// Asks: a shaped store and its count, and a class for each row in use.
pub fn all_distinct(store: &[u32], most: usize, rows: usize, cls: &mut [u16]) -> bool
    requires shaped { (most ≤ widest) × Shaped most store.now × (rows ≡ in_use store.now) }
    requires fits { rows ≤ length cls.old }
    ensures { Says (Minimal (store_graph most store.now) (in_use store.now)) result }
{
    let view = View {
        store,
        most,
        stored: rows,
        bytes: &[],
        table: &[],
    };
    sort(&view, cls);
    all_own(cls, rows)
}
