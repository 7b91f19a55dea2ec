// The result as a sheet: its length, its head and its rows.
ghost use Rattle.std.specs.Prelude.{◌≡◌, ◌+◌, ◌*◌, ◌≤◌, ◌<◌, length, get_or};
ghost use Rattle.rules.specs.Lists.{widest};
ghost use Rattle.rules.specs.Writes.{over_front, Wrote};
ghost use Rattle.rows.specs.Joined.{source_of, drawn, row_in};
ghost use Rattle.rows.specs.View.{view_rows};
ghost use Rattle.keys.specs.Bytes.{inputs_bytes, row_bytes, rows_bytes, longest_sheet};
ghost use Rattle.appending.specs.Placed.{placed_inputs, InputsPlaced};
ghost use Rattle.appending.specs.Asked.{Ready, rows_of, result_of};

use crate::places::place_of;
use keywriter::bytes::{put_five, put_two};
use keywriter::sheets::write_head;
use rows::entry;
use rows::viewing::View;
use store::row::{ROOM, Row};

// The row at place k of the order, one of the store or of the sheet.
fn row_at(view: &View, order: &[u16], places: &[u16], total: usize, k: usize) -> usize
    requires { Ready (source_of view.now) view.now.table.now order.now places.now total × (k < total) }
    ensures { (result ≡ get_or order.now k 0) ×
        (result < view_rows (source_of view.now) view.now.table.now) }
{
    entry(order, k)
}

// Row k of the result by value, as it is drawn. The view's room is the register's: where it is written, the compiler knows it.
fn row_of(view: &View, order: &[u16], places: &[u16], total: usize, k: usize) -> Row
    requires { Ready (source_of view.now) view.now.table.now order.now places.now total × (k < total) }
    ensures { result ≡ row_in (drawn (source_of view.now)) (get_or order.now k 0) }
{
    let own = View {
        most: ROOM,
        ..*view
    };
    own.read_drawn(row_at(view, order, places, total, k))
}

// The input count of row k of the result.
fn count_of(view: &View, order: &[u16], places: &[u16], total: usize, k: usize) -> usize
    requires { Ready (source_of view.now) view.now.table.now order.now places.now total × (k < total) }
    ensures { (result ≡ (rows_of (source_of view.now) order.now total).count k) × (result ≤ widest) }
{
    let row = row_of(view, order, places, total, k);
    row.count as usize
}

// The length of the result: a head of 7 bytes, and for each row 5 and two for each input.
// Asks: a store with room for `ROOM` inputs a row, and the rows in order, no more than a sheet may have.
pub fn result_length(view: &View, order: &[u16], places: &[u16], total: usize) -> usize
    requires { Ready (source_of view.now) view.now.table.now order.now places.now total }
    ensures { (result ≡ length (result_of (source_of view.now) view.now.table.now order.now total)) ×
        (result ≤ longest_sheet) }
{
    let mut need = 7;
    for i in 0..total {
        need += 5 + 2 * count_of(view, order, places, total, i);
    }
    need
}

// The first inputs of a row by value, each as the place of the row that it leads to.
fn write_inputs(
    stored: usize,
    places: &[u16],
    inputs: [u32; ROOM],
    count: usize,
    out: &mut [u8],
    at: usize,
) -> usize
    requires { InputsPlaced stored places.now inputs count × (at + 2 * count ≤ length out.old) }
    ensures { Wrote out.old at (inputs_bytes (placed_inputs stored places.now inputs) 0 count) out.new result }
{
    let mut to = at;
    for j in 0..count {
        let x = inputs[j] as usize;
        to = put_two(out, to, place_of(stored, places, x));
    }
    to
}

// Row k of the result.
fn write_row(
    view: &View,
    order: &[u16],
    places: &[u16],
    total: usize,
    out: &mut [u8],
    at: usize,
    k: usize,
) -> usize
    requires ready { Ready (source_of view.now) view.now.table.now order.now places.now total × (k < total) }
    requires k_in_bounds { at + length (row_bytes (rows_of (source_of view.now) order.now total) k) ≤ length out.old }
    ensures { Wrote out.old at
        (row_bytes (rows_of (source_of view.now) order.now total) k) out.new result }
{
    let row = row_of(view, order, places, total, k);
    let count = row.count as usize;
    let past = put_five(out, at, row.label as usize, count);
    write_inputs(view.stored, places, row.inputs, count, out, past)
}

// The rows of the result, in their order.
fn write_rows(
    view: &View,
    order: &[u16],
    places: &[u16],
    total: usize,
    out: &mut [u8],
    at: usize,
) -> usize
    requires ready { Ready (source_of view.now) view.now.table.now order.now places.now total }
    requires total_in_bounds { at + length (rows_bytes (rows_of (source_of view.now) order.now total) total) ≤ length out.old }
    ensures { Wrote out.old at
        (rows_bytes (rows_of (source_of view.now) order.now total) total) out.new result }
{
    let mut to = at;
    for k in 0..total {
        to = write_row(view, order, places, total, out, to, k);
    }
    to
}

// Bytes past the result stand.
// Asks: what `result_length` asks, the length that it gives, and room for it.
pub fn write_result(
    view: &View,
    order: &[u16],
    places: &[u16],
    total: usize,
    need: usize,
    out: &mut [u8],
)
    requires ready { Ready (source_of view.now) view.now.table.now order.now places.now total }
    requires need_value { (need ≡ length (result_of (source_of view.now) view.now.table.now order.now total)) × (need ≤ length out.old) }
    ensures { out.new ≡ over_front
        (result_of (source_of view.now) view.now.table.now order.now total) out.old }
{
    let past = write_head(out, need, total);
    write_rows(view, order, places, total, out, past);
}
