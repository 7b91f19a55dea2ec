// The new rows put into the store, each at the number of its tree.
ghost use Rattle.std.specs.Prelude.{◌≡◌, ◌+◌, ◌<◌, length, set};
ghost use Rattle.rows.specs.Joined.{source, joined};
ghost use Rattle.rows.specs.View.{Viewed, view_rows};
ghost use Rattle.rounds.specs.Classes.{class_of};
ghost use Rattle.numbering.specs.Numbers.{trees_below};
ghost use Rattle.writing.specs.After.{rows_put, store_written};
ghost use Rattle.writing.specs.Asked.{Counted, Seen, OfSheet, Roomy};
ghost use Rattle.writing.specs.Added.{RowAdded};

use crate::row::new_row;
use rows::entry;
use store::count::write_count;
use store::row::put_row;

// Row u of the sheet put, if it is the first with its tree.
fn put_one(
    store: &mut [u32],
    most: usize,
    stored: usize,
    bytes: &[u8],
    table: &[u16],
    cls: &[u16],
    numbers: &[u16],
    u: usize,
)
    requires seen { Seen stored bytes.now table.now cls.now numbers.now }
    requires of_sheet { OfSheet stored table.now u }
    requires roomy { Roomy most (stored + length table.now) (class_of cls.now) store.old }
    ensures { RowAdded most stored bytes.now (class_of cls.now) store.old store.new u }
{
    if entry(cls, u) == u {
        let row = new_row(stored, bytes, table, cls, numbers, u);
        put_row(store, most, entry(numbers, u), row);
    }
}

// All new rows put.
// Asks: a view whose rows have classes and numbers, and room for every tree of it.
pub fn put_rows(
    store: &mut [u32],
    most: usize,
    stored: usize,
    bytes: &[u8],
    table: &[u16],
    cls: &[u16],
    numbers: &[u16],
)
    requires viewed { Viewed (source most store.old stored bytes.now) table.now }
    requires counted { Counted (view_rows (source most store.old stored bytes.now) table.now) cls.now numbers.now }
    requires roomy { Roomy most (view_rows (source most store.old stored bytes.now) table.now) (class_of cls.now) store.old }
    ensures { store.new ≡ rows_put most (joined (source most store.old stored bytes.now))
        (class_of cls.now) stored store.old
        (view_rows (source most store.old stored bytes.now) table.now) }
{
    let n = stored + table.len();
    for u in stored..n {
        put_one(store, most, stored, bytes, table, cls, numbers, u);
    }
}

// The new rows, and then the new count of rows in use.
// Asks: as for the rows, of a store with words, and the count of their trees.
pub fn write_store(
    store: &mut [u32],
    most: usize,
    stored: usize,
    bytes: &[u8],
    table: &[u16],
    cls: &[u16],
    numbers: &[u16],
    count: usize,
)
    requires viewed { Viewed (source most store.old stored bytes.now) table.now }
    requires counted { Counted (view_rows (source most store.old stored bytes.now) table.now) cls.now numbers.now }
    requires roomy { Roomy most (view_rows (source most store.old stored bytes.now) table.now) (class_of cls.now) store.old }
    requires store_nonzero { (0 < length store.old) ×
        (count ≡ trees_below (class_of cls.now) (view_rows (source most store.old stored bytes.now) table.now)) }
    ensures { store.new ≡ store_written most (joined (source most store.old stored bytes.now))
        (class_of cls.now) stored
        (view_rows (source most store.old stored bytes.now) table.now) store.old }
{
    put_rows(store, most, stored, bytes, table, cls, numbers);
    write_count(store, count);
}
