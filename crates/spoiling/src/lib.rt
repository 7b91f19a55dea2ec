// Rows spoiled by themselves: over the limit, an input that is no row taken, a wire without exactly one input.
#![tactic(auto)]

ghost use Rattle.std.specs.Prelude.{◌≡◌, ◌<◌, length};
ghost use Rattle.rules.specs.Answers.{Says};
ghost use Rattle.store.specs.Layout.{store_graph};
ghost use Rattle.store.specs.Rows.{RowThere};
ghost use Rattle.wires.specs.Wires.{Wire};
ghost use Rattle.mends.specs.Entries.{entry_of};
ghost use Rattle.spoiling.specs.Own.{AstrayInput, WrongWire, OwnFault, InputAsks, OwnAsks, OwnMarked, MarkSays};

use store::row::{count_of, input_of, label_of};
use wires::is_wire;

// The entry of a dropped row. An entry stays a word, and no enum: the caller lends the list as words, and gets numbers back in it.
pub const GONE: u32 = u32::MAX;

// An entry of the list.
// Asks: there is one. Callers look at rows taken.
pub fn entry_of(list: &[u32], u: usize) -> u32
    requires { u < length list.now }
    ensures { result ≡ entry_of list.now u }
{
    list[u]
}

// Whether row u is a wire.
// Asks: the row is there. Callers look at rows taken.
pub fn wire_at(store: &[u32], most: usize, u: usize) -> bool
    requires { RowThere most store.now u }
    ensures { Says (Wire (store_graph most store.now) u) result }
{
    is_wire(label_of(store, most, u))
}

// Whether a used input of row u is no row taken.
fn inputs_astray(store: &[u32], most: usize, n: usize, u: usize) -> bool
    requires { InputAsks most store.now u }
    ensures { Says (AstrayInput most store.now n u) result }
{
    let count = count_of(store, most, u) as usize;
    (0..count).any(|j| n <= input_of(store, most, u, j) as usize)
}

// Whether row u is a wire without exactly one input.
fn wrong_wire(store: &[u32], most: usize, u: usize) -> bool
    requires { RowThere most store.now u }
    ensures { Says (WrongWire most store.now u) result }
{
    count_of(store, most, u) != 1 && wire_at(store, most, u)
}

// Whether row u is spoiled by itself.
fn row_spoiled(store: &[u32], most: usize, n: usize, u: usize) -> bool
    requires { RowThere most store.now u }
    ensures { Says (OwnFault most store.now n u) result }
{
    if most < count_of(store, most, u) as usize {
        return true;
    }
    wrong_wire(store, most, u) || inputs_astray(store, most, n, u)
}

// Row u marked or not.
fn mark_row(store: &[u32], most: usize, list: &mut [u32], n: usize, u: usize)
    requires { RowThere most store.now u × (u < length list.old) }
    ensures { MarkSays most store.now n list.old u list.new }
{
    if row_spoiled(store, most, n, u) {
        list[u] = GONE;
    } else {
        list[u] = 0;
    }
}

// Each row marked that is spoiled by itself; the entry of any other is 0.
// Asks: the rows are there, with an entry each.
pub fn mark_own(store: &[u32], most: usize, list: &mut [u32], n: usize)
    requires { OwnAsks most n store.now list.old }
    ensures { OwnMarked most n store.now list.old list.new n }
{
    for u in 0..n {
        mark_row(store, most, list, n, u);
    }
}
