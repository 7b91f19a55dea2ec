// A chain: the rows in memory, and the order in which they stand.
ghost use Rattle.std.specs.Prelude.{◌≡◌, ◌<◌, get_or};
ghost use Rattle.ticking.specs.Memory.{LinedIn};

use rows::entry;

// A store's words, with room for so many inputs a row and so many rows in use; and the rows of it that stand at the front of the queue.
#[derive(Clone, Copy)]
pub struct Chain<'a> {
    pub store: &'a [u32],
    pub most: usize,
    pub n: usize,
    pub queue: &'a [u16],
    pub filled: usize,
}

// The row at place k of the queue.
// Asks: rows in an order, and a place among them.
pub fn row_at(chain: &Chain, k: usize) -> usize
    requires { LinedIn chain.now × (k < chain.now.filled) }
    ensures { (result ≡ get_or chain.now.queue.now k 0) × (result < chain.now.n) }
{
    entry(chain.queue, k)
}
