// How many rows a run of words has room for.
ghost use Rattle.std.specs.Prelude.{◌≡◌, ◌≤◌};
ghost use Rattle.rules.specs.Lists.{widest};
ghost use Rattle.store.specs.Layout.{capacity_answer};

// Rows a store may have.
pub const MOST_ROWS: usize = 1024;

// None is a run of no words, which has not even the count.
// Asks: a row has room for no more inputs than any row has. Callers pass ROOM.
pub fn capacity_of(words: usize, most: usize) -> Option<usize>
    requires { most ≤ widest }
    ensures { result ≡ capacity_answer most words }
{
    if words == 0 {
        return None;
    }
    Some(((words - 1) / (most + 2)).min(MOST_ROWS))
}
