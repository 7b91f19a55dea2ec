// The store rows that a sheet leads to, met from its rows and then from the rows met.
#![tactic(auto)]

ghost use Rattle.std.specs.Prelude.{◌≡◌, ◌+◌, ◌≤◌, ◌<◌, length, take};
ghost use Rattle.rules.specs.Lists.{widest};
ghost use Rattle.rows.specs.Joined.{source_of, drawn};
ghost use Rattle.rows.specs.View.{Drawn};
ghost use Rattle.walker.specs.Queue.{Marked, Queued};
ghost use Rattle.reaching.specs.Reached.{Reached};
ghost use Rattle.reaching.specs.Meeting.{meet_stored, meet_these, row_at, Visited};

use rows::entry;
use rows::viewing::View;
use store::row::ROOM;
use walker::meet_row;

// A row of the store is met. A row of the sheet needs no place in the queue.
fn meet_stored(
    queue: &mut [u16],
    marks: &mut [u16],
    stored: usize,
    filled: usize,
    x: usize,
) -> usize
    requires { Marked stored queue.old marks.old filled }
    ensures { Queued stored queue.new marks.new result (meet_stored stored (take filled queue.old) x) }
{
    if x < stored {
        return meet_row(queue, marks, stored, filled, x);
    }
    filled
}

// The store rows among the first inputs of a row by value are met. Judging meets rows in the same words, but marks them by a state.
fn meet_inputs(
    queue: &mut [u16],
    marks: &mut [u16],
    stored: usize,
    filled: usize,
    inputs: [u32; ROOM],
    count: usize,
) -> usize
    requires { Marked stored queue.old marks.old filled × (count ≤ widest) }
    ensures { Queued stored queue.new marks.new result
        (meet_these stored inputs (take filled queue.old) count) }
{
    let mut met = filled;
    for j in 0..count {
        met = meet_stored(queue, marks, stored, met, inputs[j] as usize);
    }
    met
}

// Row k of those looked at: the sheet's rows, and then those of the queue.
fn row_at(
    queue: &[u16],
    marks: &[u16],
    stored: usize,
    rows: usize,
    filled: usize,
    k: usize,
) -> usize
    requires { Marked stored queue.now marks.now filled × (rows ≤ 1024) × (k < rows + filled) }
    ensures { (result ≡ row_at stored rows queue.now k) × (result < stored + rows) }
{
    if k < rows {
        return stored + k;
    }
    entry(queue, k - rows)
}

// Row k of those looked at is read, and its inputs are met.
#[inline(always)]
fn visit(view: &View, queue: &mut [u16], marks: &mut [u16], filled: usize, k: usize) -> usize
    requires drawn { Drawn (source_of view.now) view.now.table.now }
    requires marked { Marked view.now.stored queue.old marks.old filled × (k < length view.now.table.now + filled) }
    ensures { Visited (drawn (source_of view.now)) view.now.stored
        (row_at view.now.stored (length view.now.table.now) queue.old k) queue.old filled
        queue.new marks.new result }
{
    let u = row_at(queue, marks, view.stored, view.table.len(), filled, k);
    let row = view.read_drawn(u);
    let count = row.count as usize;
    meet_inputs(queue, marks, view.stored, filled, row.inputs, count)
}

// All rows looked at.
// The queue grows behind the rows that are looked at: so the loop counts by hand.
#[inline(always)]
fn reach_all(view: &View, queue: &mut [u16], marks: &mut [u16]) -> usize
    requires drawn { Drawn (source_of view.now) view.now.table.now }
    requires stored_in_bounds { (view.now.stored ≤ length queue.old) × (view.now.stored ≤ length marks.old) }
    ensures { Reached (drawn (source_of view.now)) view.now.stored
        (length view.now.table.now) queue.new marks.new result }
{
    let rows = view.table.len();
    let mut filled = 0;
    let mut k = 0;
    while k < rows + filled {
        filled = visit(view, queue, marks, filled, k);
        k += 1;
    }
    filled
}

// The store rows that some row of the sheet leads to are left in the queue. How many they are.
// Rows with the register's own room have a loop of their own: a view holds the room, and only there does the compiler know it.
// Asks: rows as they are drawn, and an entry of both arrays for each row in use, whatever stands there.
pub fn reach(view: &View, queue: &mut [u16], marks: &mut [u16]) -> usize
    requires drawn { Drawn (source_of view.now) view.now.table.now }
    requires stored_in_bounds { (view.now.stored ≤ length queue.old) × (view.now.stored ≤ length marks.old) }
    ensures { Reached (drawn (source_of view.now)) view.now.stored
        (length view.now.table.now) queue.new marks.new result }
{
    if view.most == ROOM {
        let own = View {
            most: ROOM,
            ..*view
        };
        return reach_all(&own, queue, marks);
    }
    reach_all(view, queue, marks)
}
