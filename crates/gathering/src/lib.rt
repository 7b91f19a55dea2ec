// The rows left moved down in place, each with its inputs through the list; the rows freed, and word 0.
#![tactic(auto)]

ghost use Rattle.std.specs.Prelude.{◌≡◌};
ghost use Rattle.rules.specs.Lists.{in_room, widest};
ghost use Rattle.gathering.specs.Gathered.{listed_input, InputsListed, RowListed, moved_row, MoveAsks, RowMoved, GatherAsks, RowsGathered, FreeAsks, RowsFreed, Finished, Gathered};

use spoiling::entry_of;
use store::count::write_count;
use store::row::{ROOM, Row, put_row, read_row};

// The first inputs of a row by value, each as the list has it, and zero past them.
fn listed_inputs(list: &[u32], inputs: [u32; ROOM], count: usize) -> [u32; ROOM]
    requires { InputsListed list.now inputs count }
    ensures { result ≡ in_room widest (listed_input list.now inputs) count }
{
    let mut found = [0u32; ROOM];
    for j in 0..count {
        found[j] = entry_of(list, inputs[j] as usize);
    }
    found
}

// Row u with its inputs through the list.
fn moved_row(store: &[u32], most: usize, list: &[u32], u: usize) -> Row
    requires { RowListed most store.now list.now u }
    ensures { result ≡ moved_row most store.now list.now u }
{
    let row = read_row(store, most, u);
    Row {
        label: row.label,
        count: row.count,
        inputs: listed_inputs(list, row.inputs, row.count as usize),
    }
}

// Row u moved to row k if its number is k; handed back is the next number.
fn move_one(store: &mut [u32], most: usize, list: &[u32], u: usize, k: usize) -> usize
    requires { MoveAsks most store.old list.now u k }
    ensures { RowMoved most list.now u k store.old store.new result }
{
    if entry_of(list, u) as usize != k {
        return k;
    }
    let row = moved_row(store, most, list, u);
    put_row(store, most, k, row);
    k + 1
}

// All rows moved; handed back is how many.
fn gather_rows(store: &mut [u32], most: usize, list: &[u32], n: usize) -> usize
    requires { GatherAsks most n store.old list.now }
    ensures { RowsGathered most n list.now store.old store.new result }
{
    let mut k = 0;
    for u in 0..n {
        k = move_one(store, most, list, u, k);
    }
    k
}

// Rows k to n all zero.
fn free_rows(store: &mut [u32], most: usize, k: usize, n: usize)
    requires { FreeAsks most k n store.old }
    ensures { RowsFreed most k n store.old store.new }
{
    for u in k..n {
        let row = Row {
            label: 0,
            count: 0,
            inputs: [0u32; ROOM],
        };
        put_row(store, most, u, row);
    }
}

// The rows from k on freed, and word 0.
fn finish(store: &mut [u32], most: usize, k: usize, n: usize)
    requires { FreeAsks most k n store.old }
    ensures { Finished most k n store.old store.new }
{
    free_rows(store, most, k, n);
    write_count(store, k);
}

// The rows moved, the freed rows zero, and word 0 the kept count.
// Asks: the rows are there, within the limit, with an entry each, and their inputs are among them.
pub fn gather(store: &mut [u32], most: usize, list: &[u32], n: usize)
    requires { GatherAsks most n store.old list.now }
    ensures { Gathered most n list.now store.old store.new }
{
    let k = gather_rows(store, most, list, n);
    finish(store, most, k, n);
}
