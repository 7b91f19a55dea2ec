// Whether no two rows of a shaped store have the same tree.
ghost use Rattle.std.specs.Prelude.{◌≡◌, ◌≤◌, length};
ghost use Rattle.rules.specs.Answers.{Says};
ghost use Rattle.trees.specs.Agreement.{Minimal};
ghost use Rattle.store.specs.Sound.{Shaped};
ghost use Rattle.store.specs.Layout.{in_use, store_graph, room};

use classes::alone::all_distinct;
use rows::JOINED_ROWS;
use store::row::ROOM;

// For a caller that has classes to lend.
// Asks: a shaped store and its count, and 2,048 classes.
pub fn distinct_in(store: &[u32], rows: usize, cls: &mut [u16]) -> bool
    requires { Shaped room store.now × (rows ≡ in_use store.now) × (length cls.old ≡ 2048) }
    ensures { Says (Minimal (store_graph room store.now) (in_use store.now)) result }
{
    all_distinct(store, ROOM, rows, cls)
}

// Asks: a shaped store and its count. The operations check the shape first.
pub fn distinct(store: &[u32], rows: usize) -> bool
    requires { Shaped room store.now × (rows ≡ in_use store.now) }
    ensures { Says (Minimal (store_graph room store.now) (in_use store.now)) result }
{
    let mut cls = [0u16; JOINED_ROWS];
    distinct_in(store, rows, &mut cls)
}
