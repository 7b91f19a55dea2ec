// The rows of the result in order: the sheet's rows, then the store's that they lead to, by rising number. Each of those gets a place.
ghost use Rattle.std.specs.Prelude.{◌+◌, ◌≤◌, ◌<◌, length, take};
ghost use Rattle.walks.specs.Member.{Member};
ghost use Rattle.walker.specs.Queue.{Marked};
ghost use Rattle.appending.specs.Arranged.{SheetFirst, Arranging, Arranged};

use rows::put_entry;
use walker::met;

// The sheet's rows, as they stand behind the store's.
fn put_sheet_rows(stored: usize, rows: usize, order: &mut [u16])
    requires { (stored ≤ 1024) × (rows ≤ 1024) × (rows ≤ length order.old) }
    ensures { SheetFirst stored rows order.new }
{
    for i in 0..rows {
        put_entry(order, i, stored + i);
    }
}

// Row x of the store goes behind the k before it, if it has been met. How many there are then.
fn put_store_row(
    queue: &[u16],
    marks: &[u16],
    stored: usize,
    filled: usize,
    rows: usize,
    order: &mut [u16],
    places: &mut [u16],
    x: usize,
    k: usize,
) -> usize
    requires marked { Marked stored queue.now marks.now filled × (rows ≤ 1024) × (x < stored) }
    requires arranging { Arranging (Member (take filled queue.now)) stored rows order.old places.old x k }
    ensures { Arranging (Member (take filled queue.now)) stored rows order.new places.new (x + 1) result }
{
    if !met(queue, marks, stored, filled, x) {
        return k;
    }
    let at = rows + k;
    put_entry(order, at, x);
    put_entry(places, x, at);
    k + 1
}

// The store's rows that have been met, behind the sheet's. How many rows there are in all.
fn put_store_rows(
    queue: &[u16],
    marks: &[u16],
    stored: usize,
    filled: usize,
    rows: usize,
    order: &mut [u16],
    places: &mut [u16],
) -> usize
    requires marked { Marked stored queue.now marks.now filled × (rows ≤ 1024) × SheetFirst stored rows order.old }
    requires stored_in_bounds { (rows + stored ≤ length order.old) × (stored ≤ length places.old) }
    ensures { Arranged (Member (take filled queue.now)) stored rows order.new places.new result }
{
    let mut k = 0;
    for x in 0..stored {
        k = put_store_row(queue, marks, stored, filled, rows, order, places, x, k);
    }
    rows + k
}

// How many rows the result has. They may be more than a sheet may have: the caller tests that before it goes on.
// Asks: the store's rows met, with their marks; an entry of the order for each row of sheet and store, and a place for each of the store.
pub fn arrange(
    queue: &[u16],
    marks: &[u16],
    stored: usize,
    filled: usize,
    rows: usize,
    order: &mut [u16],
    places: &mut [u16],
) -> usize
    requires marked { Marked stored queue.now marks.now filled × (rows ≤ 1024) }
    requires stored_in_bounds { (rows + stored ≤ length order.old) × (stored ≤ length places.old) }
    ensures { Arranged (Member (take filled queue.now)) stored rows order.new places.new result }
{
    put_sheet_rows(stored, rows, order);
    put_store_rows(queue, marks, stored, filled, rows, order, places)
}
