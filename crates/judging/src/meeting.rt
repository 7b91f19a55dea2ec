// Rows met from the starts on, each read once: the sheet's rows, which are all starts, and then those of the store in the order of a queue.
ghost use Rattle.std.specs.Prelude.{◌≡◌, ◌<◌};
ghost use Rattle.rows.specs.Joined.{source_of, drawn};
ghost use Rattle.rows.specs.View.{view_rows};
ghost use Rattle.judging.specs.Verdicts.{state_of};
ghost use Rattle.judging.specs.Stated.{Stated};
ghost use Rattle.judging.specs.Queues.{Queueing, Askable, Meets, AllAskable, TheseMet, Starting, RowSays, SheetSays, SheetVisited, MeetSays};

use crate::catalogue::listed;
use crate::misfit::Misfit;
use crate::states::state_of;
use rows::entry;
use rows::viewing::View;
use store::row::ROOM;

// Row x is met, and goes to the end of the queue if it was not. How many stand in it.
fn meet(state: &mut [u8], queue: &mut [u16], stored: usize, filled: usize, x: usize) -> usize
    requires { Queueing stored state.old queue.old filled × Askable stored state.old x }
    ensures { Meets stored state.old queue.old filled x state.new queue.new result }
{
    if state_of(state, x) != 0 {
        return filled;
    }
    state[x] = 1;
    queue[filled] = x as u16;
    filled + 1
}

// The first inputs of a row by value are met.
fn meet_inputs(
    state: &mut [u8],
    queue: &mut [u16],
    stored: usize,
    filled: usize,
    inputs: [u32; ROOM],
    count: usize,
) -> usize
    requires { Queueing stored state.old queue.old filled × AllAskable stored state.old inputs count }
    ensures { TheseMet stored inputs count state.old queue.old filled count state.new queue.new result }
{
    let mut met = filled;
    for j in 0..count {
        met = meet(state, queue, stored, met, inputs[j] as usize);
    }
    met
}

// Row u, which is met, is looked at, and its inputs are met. How many rows of the store stand in the queue then, if it is listed.
fn meet_row(
    view: &View,
    state: &mut [u8],
    queue: &mut [u16],
    filled: usize,
    u: usize,
) -> Result<usize, Misfit>
    requires starting { Starting (source_of view.now) view.now.table.now state.old queue.old filled }
    requires u_bound { (u < view_rows (source_of view.now) view.now.table.now) × (state_of state.old u ≡ 1) }
    ensures { RowSays (source_of view.now) view.now.table.now
        state.old queue.old filled u state.new queue.new result }
{
    let row = view.read_drawn(u);
    if !listed(row) {
        return Err(Misfit::NotListed);
    }
    let count = row.count as usize;
    Ok(meet_inputs(state, queue, view.stored, filled, row.inputs, count))
}

// The rows of the sheet.
fn meet_sheet(
    view: &View,
    state: &mut [u8],
    queue: &mut [u16],
    filled: usize,
) -> Result<usize, Misfit>
    requires { Starting (source_of view.now) view.now.table.now state.old queue.old filled }
    ensures { SheetSays (source_of view.now) view.now.table.now
        state.old state.new queue.new result }
{
    let mut met = filled;
    for u in view.stored..view.rows() {
        met = meet_row(view, state, queue, met, u)?;
    }
    Ok(met)
}

// The rows of the queue, which grows behind them: so the loop counts by hand.
fn meet_queue(
    view: &View,
    state: &mut [u8],
    queue: &mut [u16],
    filled: usize,
) -> Result<usize, Misfit>
    requires { SheetVisited (source_of view.now) view.now.table.now state.old queue.old filled }
    ensures { MeetSays (source_of view.now) view.now.table.now
        state.old state.new queue.new result }
{
    let mut met = filled;
    let mut k = 0;
    while k < met {
        let u = entry(queue, k);
        met = meet_row(view, state, queue, met, u)?;
        k += 1;
    }
    Ok(met)
}

// Asks: rows as they are drawn, a state for each, 1 for each row of the sheet and for the store's starts, which stand in the queue.
pub fn meet_all(
    view: &View,
    state: &mut [u8],
    queue: &mut [u16],
    filled: usize,
) -> Result<usize, Misfit>
    requires { Starting (source_of view.now) view.now.table.now state.old queue.old filled }
    ensures { MeetSays (source_of view.now) view.now.table.now
        state.old state.new queue.new result }
{
    let met = meet_sheet(view, state, queue, filled)?;
    meet_queue(view, state, queue, met)
}
