// The verdict on all rows that the starts lead to.
ghost use Rattle.std.specs.Prelude.{◌≤◌, length};
ghost use Rattle.rules.specs.Answers.{Says};
ghost use Rattle.rows.specs.Joined.{source_of, drawn};
ghost use Rattle.rows.specs.View.{view_rows};
ghost use Rattle.judging.specs.Stated.{Stated};
ghost use Rattle.judging.specs.Queues.{Starting, AllVisited};
ghost use Rattle.judging.specs.Left.{LeftBetween, SheetLeft, HeldSays, Judges};

use crate::meeting::meet_all;
use crate::misfit::Misfit;
use crate::peeling::{peel_queue, peel_sheet};
use rows::viewing::View;

// Rows of the sheet taken away until none can be. Whether one is left, which is met and not gone.
fn leaves_some(view: &View, state: &mut [u8]) -> bool
    requires { Stated (source_of view.now) view.now.table.now state.old }
    ensures { SheetLeft (drawn (source_of view.now)) view.now.stored
        (view_rows (source_of view.now) view.now.table.now) state.old result }
{
    peel_sheet(view, state);
    state[view.stored..view.rows()].contains(&1)
}

// The rows met, all of them listed, taken away until none can be.
fn held_rows(
    view: &View,
    state: &mut [u8],
    queue: &mut [u16],
    filled: usize,
) -> Result<usize, Misfit>
    requires { AllVisited (source_of view.now) view.now.table.now state.old queue.old filled }
    ensures { HeldSays (source_of view.now) view.now.table.now
        state.old queue.new result }
{
    let left = peel_queue(view, state, queue, filled);
    if 0 < left {
        return Err(Misfit::NotHeld);
    }
    if leaves_some(view, state) {
        return Err(Misfit::NotHeld);
    }
    Ok(filled)
}

// How many rows of the store are met, if all rows are fine: they are left in the queue, in order. Not listed comes before not held, whichever
// row is first.
// Asks: rows as they are drawn, a state for each, 1 for each row of the sheet and for the store's starts, which stand in the queue.
pub fn verdict_of(
    view: &View,
    state: &mut [u8],
    queue: &mut [u16],
    filled: usize,
) -> Result<usize, Misfit>
    requires { Starting (source_of view.now) view.now.table.now state.old queue.old filled }
    ensures { Judges (source_of view.now) view.now.table.now
        state.old queue.new result }
{
    let met = meet_all(view, state, queue, filled)?;
    held_rows(view, state, queue, met)
}
