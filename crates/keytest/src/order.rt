// Whether the rows of a sheet stand in the order of the walk from its row 0. No queue is needed: they do when, row after row and
// input after input from the left, every row that is met for the first time is the next number.
ghost use Rattle.std.specs.Prelude.{◌≡◌, length};
ghost use Rattle.rules.specs.Answers.{Says};
ghost use Rattle.rows.specs.Joined.{source_of, joined};
ghost use Rattle.rows.specs.View.{InView, Viewed};
ghost use Rattle.keytest.specs.Order.{Sight, RowSays, InOrder};

use rows::viewing::View;

// One row met: how many rows have been met now, all of them in order; nothing where it is met out of order.
fn sight(met: usize, input: u32) -> Option<usize>
    ensures { Sight met input result }
{
    let x = input as usize;
    if x < met {
        return Some(met);
    }
    if x == met {
        return Some(met + 1);
    }
    None
}

// The inputs of row k met from the left, in the same words.
fn order_row(view: &View, k: usize, seen: usize) -> Option<usize>
    requires { InView (source_of view.now) view.now.table.now k }
    ensures { RowSays (joined (source_of view.now)) k seen result }
{
    let row = view.read(k);
    let inputs = &row.inputs[..row.count as usize];
    let mut met = seen;
    for &input in inputs {
        met = sight(met, input)?;
    }
    Some(met)
}

// Row 0 has been met before the first row is looked at.
// Asks: a view of a sheet alone. The caller has read the sheet, and seen that its inputs point to its rows.
pub fn in_order(view: &View) -> bool
    requires { Viewed (source_of view.now) view.now.table.now × (view.now.stored ≡ 0) }
    ensures { Says (InOrder (joined (source_of view.now)) (length view.now.table.now)) result }
{
    let rows = view.table.len();
    let mut seen = 1;
    for k in 0..rows {
        if seen <= k {
            return false;
        }
        let Some(met) = order_row(view, k, seen) else {
            return false;
        };
        seen = met;
    }
    seen == rows
}
