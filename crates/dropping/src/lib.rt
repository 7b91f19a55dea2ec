// Rows marked because a used input is marked, round after round, until no row is.
#![tactic(auto)]

ghost use Rattle.rules.specs.Answers.{Says};
ghost use Rattle.store.specs.Layout.{input_of};
ghost use Rattle.mends.specs.Entries.{Marked};
ghost use Rattle.dropping.specs.Dropping.{InputSeen, HasMarked, RowSeen, RowAsks, RowDrops, DropAsks, RoundSays, Settled};

use spoiling::{GONE, entry_of};
use store::row::{count_of, input_of};

// Whether input j of row u is marked.
fn input_marked(store: &[u32], most: usize, list: &[u32], u: usize, j: usize) -> bool
    requires { InputSeen most store.now list.now u j }
    ensures { Says (Marked list.now (input_of most store.now u j)) result }
{
    entry_of(list, input_of(store, most, u, j) as usize) == GONE
}

// Whether a used input of row u is marked.
fn has_marked(store: &[u32], most: usize, list: &[u32], u: usize) -> bool
    requires { RowSeen most store.now list.now u }
    ensures { Says (HasMarked most store.now list.now u) result }
{
    let count = count_of(store, most, u) as usize;
    (0..count).any(|j| input_marked(store, most, list, u, j))
}

// Row u marked, if it is not and a used input is. Whether it was done.
fn drop_row(store: &[u32], most: usize, list: &mut [u32], u: usize) -> bool
    requires { RowAsks most store.now list.old u }
    ensures { RowDrops most store.now list.old u list.new result }
{
    if entry_of(list, u) == GONE {
        return false;
    }
    if !has_marked(store, most, list, u) {
        return false;
    }
    list[u] = GONE;
    true
}

// All rows looked at. Whether one was marked.
fn drop_round(store: &[u32], most: usize, list: &mut [u32], n: usize) -> bool
    requires { DropAsks most n store.now list.old }
    ensures { RoundSays most n store.now list.old list.new result }
{
    let mut moved = false;
    for u in 0..n {
        moved |= drop_row(store, most, list, u);
    }
    moved
}

// Rounds until none marks a row.
// Asks: rows that are not marked are within the limit, and their inputs are rows taken.
pub fn drop_rounds(store: &[u32], most: usize, list: &mut [u32], n: usize)
    requires { DropAsks most n store.now list.old }
    ensures { Settled most n store.now list.old list.new }
{
    while drop_round(store, most, list, n) {}
}
