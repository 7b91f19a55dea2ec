// Rows taken away one after another: a hold, or a row all of whose inputs are gone. What is left leads to a loop without a hold.
// The store's rows go first, by their queue; then the sheet's, which no store row has for an input.
ghost use Rattle.std.specs.Prelude.{◌+◌, ◌≤◌, ◌<◌, length};
ghost use Rattle.rules.specs.Answers.{Says};
ghost use Rattle.rows.specs.Joined.{source_of, drawn};
ghost use Rattle.rows.specs.View.{view_rows};
ghost use Rattle.judging.specs.Moves.{Looked};
ghost use Rattle.judging.specs.Stated.{Stated};
ghost use Rattle.judging.specs.Rules.{AllGone, AllThere, Peels, peeling};
ghost use Rattle.judging.specs.Left.{SheetPeeled};
ghost use Rattle.judging.specs.Queues.{Queueing};
ghost use Rattle.judging.specs.Sifts.{PutBack, Sifting, PlaceSays, PassSays, QueueSifted};

use crate::states::state_of;
use rows::viewing::View;
use rows::{entry, put_entry};
use store::row::ROOM;

// The operation that a loop has to pass.
const HOLD: u32 = 6;

// Whether the first inputs of a row by value are gone.
fn all_gone(state: &[u8], inputs: [u32; ROOM], count: usize) -> bool
    requires { AllThere state.now inputs count }
    ensures { Says (AllGone state.now inputs count) result }
{
    for j in 0..count {
        if state_of(state, inputs[j] as usize) != 2 {
            return false;
        }
    }
    true
}

// Whether row u may be taken away.
fn peels(view: &View, state: &[u8], u: usize) -> bool
    requires stated { Stated (source_of view.now) view.now.table.now state.now }
    requires u_bound { u < view_rows (source_of view.now) view.now.table.now }
    ensures { Says (Peels (drawn (source_of view.now)) state.now u) result }
{
    let row = view.read_drawn(u);
    if row.label / 65536 == HOLD {
        return true;
    }
    all_gone(state, row.inputs, row.count as usize)
}

// The entries from place k up to place m move up by one, and the first of them stands at place m: the others keep their order.
fn put_back(queue: &mut [u16], k: usize, m: usize)
    requires { (k ≤ m) × (m < length queue.old) }
    ensures { PutBack k m queue.old queue.new }
{
    let first = entry(queue, k);
    for i in k..m {
        let next = entry(queue, i + 1);
        put_entry(queue, i, next);
    }
    put_entry(queue, m, first);
}

// The row at place k of the queue goes, if it may: it is put behind all that wait, which keep their order. How many wait then.
fn peel_place(
    view: &View,
    state: &mut [u8],
    queue: &mut [u16],
    filled: usize,
    waiting: usize,
    k: usize,
) -> usize
    requires stated { Stated (source_of view.now) view.now.table.now state.old }
    requires sifting { Sifting (drawn (source_of view.now)) view.now.stored state.old queue.old filled waiting × (k < waiting) }
    ensures { PlaceSays (drawn (source_of view.now)) view.now.stored filled
        state.old queue.old waiting k state.new queue.new result }
{
    let row = entry(queue, k);
    if !peels(view, state, row) {
        return waiting;
    }
    state[row] = 2;
    put_back(queue, k, waiting - 1);
    waiting - 1
}

// The rows that wait looked at, the last first, since rows are met before their inputs. How many wait still.
fn peel_places(
    view: &View,
    state: &mut [u8],
    queue: &mut [u16],
    filled: usize,
    waiting: usize,
) -> usize
    requires stated { Stated (source_of view.now) view.now.table.now state.old }
    requires sifting { Sifting (drawn (source_of view.now)) view.now.stored state.old queue.old filled waiting }
    ensures { PassSays (drawn (source_of view.now)) view.now.stored filled
        state.old queue.old waiting 0 state.new queue.new result }
{
    let mut left = waiting;
    for k in (0..waiting).rev() {
        left = peel_place(view, state, queue, filled, left, k);
    }
    left
}

// Passes until none takes a row away. How many rows of the store are left.
// Asks: rows as they are drawn, a state for each, and a queue of the store rows met.
pub fn peel_queue(view: &View, state: &mut [u8], queue: &mut [u16], filled: usize) -> usize
    requires stated { Stated (source_of view.now) view.now.table.now state.old }
    requires queueing { Queueing view.now.stored state.old queue.old filled }
    ensures { QueueSifted (drawn (source_of view.now)) view.now.stored filled
        state.old state.new queue.new result }
{
    let mut waiting = filled;
    // The last pass is known by what it hands back, which is the answer too.
    loop {
        let left = peel_places(view, state, queue, filled, waiting);
        if left == waiting {
            return left;
        }
        waiting = left;
    }
}

// Row u taken away, if it is met and may be.
fn peel_row(view: &View, state: &mut [u8], u: usize) -> bool
    requires stated { Stated (source_of view.now) view.now.table.now state.old }
    requires u_bound { u < view_rows (source_of view.now) view.now.table.now }
    ensures { Looked (peeling (drawn (source_of view.now)))
        state.old u (u + 1) state.new result }
{
    if state_of(state, u) != 1 {
        return false;
    }
    if !peels(view, state, u) {
        return false;
    }
    state[u] = 2;
    true
}

// The sheet's rows looked at, the last first, since sheets are drawn from the root on. Whether one was taken away.
fn peel_pass(view: &View, state: &mut [u8]) -> bool
    requires { Stated (source_of view.now) view.now.table.now state.old }
    ensures { Looked (peeling (drawn (source_of view.now)))
        state.old view.now.stored (view_rows (source_of view.now) view.now.table.now)
        state.new result }
{
    let mut moved = false;
    for u in (view.stored..view.rows()).rev() {
        if peel_row(view, state, u) {
            moved = true;
        }
    }
    moved
}

// Passes until none takes a row away.
// Asks: rows as they are drawn, and a state for each.
pub fn peel_sheet(view: &View, state: &mut [u8])
    requires { Stated (source_of view.now) view.now.table.now state.old }
    ensures { SheetPeeled (drawn (source_of view.now)) view.now.stored
        (view_rows (source_of view.now) view.now.table.now)
        state.old state.new }
{
    while peel_pass(view, state) {}
}
