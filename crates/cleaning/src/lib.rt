// Each row becomes the row of its box, inputs past its count zero; a dropped row becomes a row without anything.
#![tactic(auto)]

ghost use Rattle.std.specs.Prelude.{◌≡◌, ◌≤◌};
ghost use Rattle.std.proofs.lemmas.List.Edits.{sets};
ghost use Rattle.rules.specs.Lists.{in_room, widest};
ghost use Rattle.store.specs.Layout.{row_word};
ghost use Rattle.store.specs.Rows.{words_of_row};
ghost use Rattle.cleaning.specs.Cleaned.{input_at, box_row, BoxAsks, CleanRowAsks, CleanAsks, RowsCleaned, Cleaned};

use spoiling::{GONE, entry_of};
use store::count::write_count;
use store::row::{ROOM, Row, put_row, read_row};

// The first inputs of a row by value, and zero past them.
fn trimmed(inputs: [u32; ROOM], count: usize) -> [u32; ROOM]
    requires { count ≤ widest }
    ensures { result ≡ in_room widest (input_at inputs) count }
{
    let mut found = [0u32; ROOM];
    for j in 0..count {
        found[j] = inputs[j];
    }
    found
}

// The row of the box that row u leads to; of a dropped row, nothing.
fn box_row(store: &[u32], most: usize, list: &[u32], u: usize) -> Row
    requires { BoxAsks most store.now list.now u }
    ensures { result ≡ box_row most store.now list.now u }
{
    let at = entry_of(list, u);
    if at == GONE {
        return Row {
            label: 0,
            count: 0,
            inputs: [0u32; ROOM],
        };
    }
    let row = read_row(store, most, at as usize);
    Row {
        label: row.label,
        count: row.count,
        inputs: trimmed(row.inputs, row.count as usize),
    }
}

// Row u cleaned.
fn clean_row(store: &mut [u32], most: usize, list: &[u32], u: usize)
    requires { CleanRowAsks most store.old list.now u }
    ensures { store.new ≡
        sets store.old (row_word most u)
        (words_of_row most (box_row most store.old list.now u)) }
{
    let row = box_row(store, most, list, u);
    put_row(store, most, u, row);
}

// All rows cleaned, rising.
fn clean_rows(store: &mut [u32], most: usize, list: &[u32], n: usize)
    requires { CleanAsks most n store.old list.now }
    ensures { RowsCleaned most n list.now store.old store.new n }
{
    for u in 0..n {
        clean_row(store, most, list, u);
    }
}

// All rows cleaned, and word 0 the count taken.
// Asks: each row that is not marked has a box, which is its own box and within the limit.
pub fn clean(store: &mut [u32], most: usize, list: &[u32], n: usize)
    requires { CleanAsks most n store.old list.now }
    ensures { Cleaned most n list.now store.old store.new }
{
    clean_rows(store, most, list, n);
    write_count(store, n);
}
