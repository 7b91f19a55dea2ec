// The verdict on a sheet before it is inserted, of its rows as they are drawn: numbers 12 and 13. A sheet has no store numbers, and so no row of
// the store is looked at.
ghost use Rattle.std.specs.Prelude.{[], ◌∷◌, ◌≤◌, length};
ghost use Rattle.store.specs.Layout.{room};
ghost use Rattle.sheet.specs.Points.{PointsNowhere};
ghost use Rattle.rows.specs.Joined.{source};
ghost use Rattle.rows.specs.Tabled.{Tabled};
ghost use Rattle.judging.specs.Stated.{Stated};
ghost use Rattle.strict.specs.Judged.{JudgedSays};

use judging::misfit::Misfit;
use judging::starts::mark_starts;
use judging::verdict::verdict_of;
use rows::viewing::View;
use sheet::fault::Fault;
use store::row::ROOM;

// The verdict on what the sheet's rows lead to: each of them is a start, and no row of the store is.
fn judge_view(
    store: &[u32],
    stored: usize,
    bytes: &[u8],
    table: &[u16],
    state: &mut [u8],
    queue: &mut [u16],
) -> Result<(), Fault>
    requires tabled { Tabled store.now bytes.now stored table.now × (stored ≤ length queue.old) }
    requires fact { (PointsNowhere bytes.now 0 → ⊥) × Stated (source room store.now stored bytes.now) table.now state.old }
    ensures { JudgedSays bytes.now result }
{
    let view = View {
        store,
        most: ROOM,
        stored,
        bytes,
        table,
    };
    let rows = view.rows();
    mark_starts(state, rows, stored, rows);
    match verdict_of(&view, state, queue, 0) {
        Ok(_) => Ok(()),
        Err(Misfit::NotListed) => Err(Fault::new(12, 0)),
        Err(Misfit::NotHeld) => Err(Fault::new(13, 0)),
    }
}

// Beside a store without rows, of one word.
// Asks: a sheet that can be read without a store, and the table of its row places.
pub fn judge_rows(bytes: &[u8], table: &[u16]) -> Result<(), Fault>
    requires { Tabled (0 ∷ []) bytes.now 0 table.now }
    ensures { JudgedSays bytes.now result }
{
    let store = [0u32; 1];
    let mut state = [0u8; 1024];
    let mut queue = [0u16; 1];
    judge_view(&store, 0, bytes, table, &mut state, &mut queue)
}
