// Rows marked that are dropped; the entry of any other row is the box that its wires lead to.
#![tactic(auto)]

ghost use Rattle.marking.specs.Marking.{MarkAsks, HalfMarked, PastStands, RowsMarked};

use dropping::drop_rounds;
use jumping::lead;
use spoiling::mark_own;

// Rows spoiled by themselves, and those that reach them.
fn mark_spoiled(store: &[u32], most: usize, list: &mut [u32], n: usize)
    requires { MarkAsks most n store.now list.old }
    ensures { HalfMarked most n store.now list.new × PastStands n list.old list.new }
{
    mark_own(store, most, list, n);
    drop_rounds(store, most, list, n);
}

// Rows that wires lead on from for ever, and those that reach them. It calls as the one above, but asks and leaves something else.
fn mark_looping(store: &[u32], most: usize, list: &mut [u32], n: usize)
    requires { MarkAsks most n store.now list.old × HalfMarked most n store.now list.old }
    ensures { RowsMarked most n store.now list.old list.new }
{
    lead(store, most, list, n);
    drop_rounds(store, most, list, n);
}

// Both halves, one after the other.
// Asks: the rows are there, with an entry each, and have room for an input.
pub fn mark(store: &[u32], most: usize, list: &mut [u32], n: usize)
    requires { MarkAsks most n store.now list.old }
    ensures { RowsMarked most n store.now list.old list.new }
{
    mark_spoiled(store, most, list, n);
    mark_looping(store, most, list, n);
}
