// Where wires lead from each row that is not marked: the jumps, taken twice in each pass.
#![tactic(auto)]

ghost use Rattle.std.specs.Prelude.{◌≡◌, ◌<◌};
ghost use Rattle.store.specs.Layout.{store_graph};
ghost use Rattle.wires.specs.Wires.{follow};
ghost use Rattle.store.specs.Rows.{RowThere};
ghost use Rattle.jumping.specs.Jumps.{OnAsks, JumpedOn, Named, SameMarks, Doubled, EndAsks, EndRow, EndlessAsks, Ended, FirstAsks, FirstRow, JumpsAsk, Jumps, Led};

use spoiling::{GONE, entry_of, wire_at};
use store::row::input_of;

// How often the jumps are doubled: 2 to the 11th are the 2,048 wires that are followed at most.
const PASSES: usize = 11;

// The jump of row u taken on, unless the row is marked.
fn jump_on(list: &mut [u32], u: usize)
    requires { OnAsks list.old u }
    ensures { JumpedOn list.old u list.new }
{
    let x = entry_of(list, u);
    if x != GONE {
        list[u] = entry_of(list, x as usize);
    }
}

// One pass: each jump is taken twice.
fn double(list: &mut [u32], n: usize)
    requires { Named n list.old }
    ensures { Named n list.new ×
        SameMarks n list.old list.new ×
        Doubled n list.old list.new 1 }
{
    for u in 0..n {
        jump_on(list, u);
    }
}

// All the passes.
fn double_all(list: &mut [u32], n: usize)
    requires { Named n list.old }
    ensures { Named n list.new ×
        SameMarks n list.old list.new ×
        Doubled n list.old list.new 11 }
{
    for _ in 0..PASSES {
        double(list, n);
    }
}

// Row u marked, if its jump ends in a wire.
fn mark_end(store: &[u32], most: usize, list: &mut [u32], u: usize)
    requires { EndAsks most store.now list.old u }
    ensures { EndRow most store.now list.old u list.new }
{
    let x = entry_of(list, u);
    if x == GONE {
        return;
    }
    if wire_at(store, most, x as usize) {
        list[u] = GONE;
    }
}

// All rows whose jump ends in a wire marked.
fn mark_endless(store: &[u32], most: usize, list: &mut [u32], n: usize)
    requires { EndlessAsks most n store.now list.old }
    ensures { Ended most n store.now list.old list.new n }
{
    for u in 0..n {
        mark_end(store, most, list, u);
    }
}

// Where one wire leads from row u.
fn next_of(store: &[u32], most: usize, u: usize) -> u32
    requires { RowThere most store.now u × (0 < most) }
    ensures { result ≡ follow (store_graph most store.now) 1 u }
{
    if wire_at(store, most, u) {
        return input_of(store, most, u, 0);
    }
    u as u32
}

// The first jump of row u, unless it is marked.
fn first_jump(store: &[u32], most: usize, list: &mut [u32], u: usize)
    requires { FirstAsks most store.now list.old u }
    ensures { FirstRow most store.now list.old u list.new }
{
    if entry_of(list, u) != GONE {
        list[u] = next_of(store, most, u);
    }
}

// The first jumps of all rows. Its loop is that of `mark_endless` under another relation: a function over both would be longer than both.
fn first_jumps(store: &[u32], most: usize, list: &mut [u32], n: usize)
    requires { JumpsAsk most n store.now list.old }
    ensures { Named n list.new ×
        SameMarks n list.old list.new ×
        Jumps (store_graph most store.now) n 1 list.new }
{
    for u in 0..n {
        first_jump(store, most, list, u);
    }
}

// Each row that wires lead on from for ever marked; the entry of any other row is the box that its wires lead to.
// Asks: inputs of rows that are not marked are rows that are not, and their wires have an input.
pub fn lead(store: &[u32], most: usize, list: &mut [u32], n: usize)
    requires { JumpsAsk most n store.now list.old }
    ensures { Led most n store.now list.old list.new }
{
    first_jumps(store, most, list, n);
    double_all(list, n);
    mark_endless(store, most, list, n);
}
