// The breadth-first walk from a store row, linear in rows and inputs.
#![tactic(auto)]

ghost use Rattle.std.specs.Prelude.{◌≡◌, ◌≤◌, ◌<◌, length, get_or, take};
ghost use Rattle.store.specs.Layout.{count_of, input_of, store_graph};
ghost use Rattle.walks.specs.Walk.{has, meet, meet_inputs, visit};
ghost use Rattle.walks.specs.Key.{walk_all};
ghost use Rattle.walker.specs.Queue.{Marked, Queued, Walkable};

use rows::entry;
use store::row::{count_of, input_of};

// Whether a row has been met.
// Asks: a queue of rows below n with their marks, and a row below n. The walk leaves its queue so.
pub fn met(queue: &[u16], marks: &[u16], n: usize, filled: usize, x: usize) -> bool
    requires { Marked n queue.now marks.now filled × (x < n) }
    ensures { result ≡ has (take filled queue.now) x }
{
    let at = entry(marks, x);
    at < filled && entry(queue, at) == x
}

// A row met goes to the end of the queue, unless it is there.
// Asks: a queue of rows below n with their marks, and a row below n. An empty queue is one.
pub fn meet_row(queue: &mut [u16], marks: &mut [u16], n: usize, filled: usize, x: usize) -> usize
    requires { Marked n queue.old marks.old filled × (x < n) }
    ensures { Queued n queue.new marks.new result (meet (take filled queue.old) x) }
{
    if met(queue, marks, n, filled, x) {
        return filled;
    }
    queue[filled] = x as u16;
    marks[x] = filled as u16;
    filled + 1
}

// The row at place k of the queue.
// Asks: a queue of rows, filled so far, and a place in it. A walk keeps it so.
pub fn row_at(queue: &[u16], marks: &[u16], n: usize, filled: usize, k: usize) -> usize
    requires { Marked n queue.now marks.now filled × (k < filled) }
    ensures { (result ≡ get_or queue.now k 0) × (result < n) }
{
    entry(queue, k)
}

// Input j of a row in use: a row in use.
fn input_in(store: &[u32], most: usize, n: usize, row: usize, j: usize) -> usize
    requires { Walkable most store.now n × (row < n) × (j < count_of most store.now row) }
    ensures { (result ≡ input_of most store.now row j) × (result < n) }
{
    input_of(store, most, row, j) as usize
}

fn count_in(store: &[u32], most: usize, n: usize, row: usize) -> usize
    requires { Walkable most store.now n × (row < n) }
    ensures { result ≡ count_of most store.now row }
{
    count_of(store, most, row) as usize
}

// A row's inputs met from the left.
fn meet_inputs(
    store: &[u32],
    most: usize,
    queue: &mut [u16],
    marks: &mut [u16],
    n: usize,
    filled: usize,
    row: usize,
) -> usize
    requires { Walkable most store.now n × Marked n queue.old marks.old filled × (row < n) }
    ensures { Queued n queue.new marks.new result
        (meet_inputs (store_graph most store.now) row (take filled queue.old)
        (count_of most store.now row)) }
{
    let count = count_in(store, most, n, row);
    let mut met = filled;
    for j in 0..count {
        let x = input_in(store, most, n, row, j);
        met = meet_row(queue, marks, n, met, x);
    }
    met
}

// The row at place k visited.
fn visit_row(
    store: &[u32],
    most: usize,
    queue: &mut [u16],
    marks: &mut [u16],
    n: usize,
    filled: usize,
    k: usize,
) -> usize
    requires { Walkable most store.now n × Marked n queue.old marks.old filled × (k < filled) }
    ensures { Queued n queue.new marks.new result
        (visit (store_graph most store.now) k (take filled queue.old)) }
{
    let row = row_at(queue, marks, n, filled, k);
    meet_inputs(store, most, queue, marks, n, filled, row)
}

// The queue grows behind the rows that are visited: so the loop counts by hand.
// Asks: a shaped store, a row in use, and an entry of both arrays for each row in use. The operations check the store first.
pub fn walk_from(
    store: &[u32],
    most: usize,
    n: usize,
    row: usize,
    queue: &mut [u16],
    marks: &mut [u16],
) -> usize
    requires { Walkable most store.now n × (row < n) × (n ≤ length queue.old) × (n ≤ length marks.old) }
    ensures { Queued n queue.new marks.new result (walk_all (store_graph most store.now) n row) }
{
    queue[0] = row as u16;
    marks[row] = 0;
    let mut filled = 1;
    let mut k = 0;
    while k < filled {
        filled = visit_row(store, most, queue, marks, n, filled, k);
        k += 1;
    }
    filled
}
