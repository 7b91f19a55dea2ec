// Converting an old sheet, with the store that it was drawn against.
#![tactic(auto)]

ghost use Rattle.std.specs.Prelude.{◌≡◌, ◌≤◌, length};
ghost use Rattle.store.specs.Layout.{room};
ghost use Rattle.rows.specs.Joined.{source_of, drawn};
ghost use Rattle.checking.specs.Checked.{SoundStore};
ghost use Rattle.converts.specs.Convert.{ConvertSays};
ghost use Rattle.reaching.specs.Reached.{Reached};
ghost use Rattle.appending.specs.Asked.{Ready};
ghost use Rattle.converter.specs.Opened.{Opened};

use appending::order::arrange;
use appending::result::{result_length, write_result};
use checking::look_over;
use converts::outcome::Converted;
use fronting::old_drawn_front;
use reaching::reach;
use rows::viewing::View;
use store::row::ROOM;

// The rows are in order: 10, or the result.
fn finish(view: &View, order: &[u16], places: &[u16], total: usize, out: &mut [u8]) -> Converted
    requires opened { Opened view.now.store.now view.now.bytes.now view.now.stored view.now.table.now }
    requires ready { Ready (source_of view.now) view.now.table.now order.now places.now total }
    ensures { ConvertSays view.now.store.now view.now.bytes.now out.old result out.new }
{
    let need = result_length(view, order, places, total);
    if out.len() < need {
        return Converted::refused(10, 0);
    }
    write_result(view, order, places, total, need, out);
    Converted {
        number: 0,
        bytes: need,
        place: 0,
    }
}

// The store rows reached are appended, by rising number: 20, or the rest.
fn convert_reached(
    view: &View,
    queue: &[u16],
    marks: &[u16],
    filled: usize,
    order: &mut [u16],
    places: &mut [u16],
    out: &mut [u8],
) -> Converted
    requires roomy { view.now.most ≡ room }
    requires opened { Opened view.now.store.now view.now.bytes.now view.now.stored view.now.table.now }
    requires reached { Reached (drawn (source_of view.now)) view.now.stored (length view.now.table.now) queue.now marks.now filled }
    requires order_len { (length order.old ≡ 2048) × (1024 ≤ length places.old) }
    ensures { ConvertSays view.now.store.now view.now.bytes.now out.old result out.new }
{
    let total = arrange(
        queue,
        marks,
        view.stored,
        filled,
        view.table.len(),
        order,
        places,
    );
    if 1024 < total {
        return Converted::refused(20, 0);
    }
    finish(view, order, places, total, out)
}

// The front has passed: the store rows that the sheet leads to are reached.
fn convert_rows(
    view: &View,
    queue: &mut [u16],
    marks: &mut [u16],
    order: &mut [u16],
    places: &mut [u16],
    out: &mut [u8],
) -> Converted
    requires roomy { view.now.most ≡ room }
    requires opened { Opened view.now.store.now view.now.bytes.now view.now.stored view.now.table.now }
    requires queue_len { (length queue.old ≡ 1024) × (length marks.old ≡ 1024) }
    requires order_len { (length order.old ≡ 2048) × (1024 ≤ length places.old) }
    ensures { ConvertSays view.now.store.now view.now.bytes.now out.old result out.new }
{
    let filled = reach(view, queue, marks);
    convert_reached(view, queue, marks, filled, order, places, out)
}

// The rows reached, with arrays of their own.
fn convert_fronted(
    store: &[u32],
    stored: usize,
    sheet: &[u8],
    table: &[u16],
    places: &mut [u16],
    out: &mut [u8],
) -> Converted
    requires { Opened store.now sheet.now stored table.now × (1024 ≤ length places.old) }
    ensures { ConvertSays store.now sheet.now out.old result out.new }
{
    let view = View {
        store,
        most: ROOM,
        stored,
        bytes: sheet,
        table,
    };
    let mut queue = [0u16; 1024];
    let mut marks = [0u16; 1024];
    let mut order = [0u16; 2048];
    convert_rows(&view, &mut queue, &mut marks, &mut order, places, out)
}

// The sheet by the rule it was drawn under: 3 to 6, 14 and 15. Where its wires lead is not asked for again, and its room is lent on.
fn convert_with(
    store: &[u32],
    stored: usize,
    sheet: &[u8],
    table: &mut [u16],
    jumps: &mut [u16],
    out: &mut [u8],
) -> Converted
    requires { SoundStore store.now stored × (length table.old ≡ 1024) × (length jumps.old ≡ 1024) }
    ensures { ConvertSays store.now sheet.now out.old result out.new }
{
    match old_drawn_front(sheet, stored, table, jumps) {
        Err(fault) => Converted::refused(fault.number, fault.place),
        Ok(rows) => convert_fronted(store, stored, sheet, &table[..rows], jumps, out),
    }
}

fn convert_sound(store: &[u32], stored: usize, sheet: &[u8], out: &mut [u8]) -> Converted
    requires { SoundStore store.now stored }
    ensures { ConvertSays store.now sheet.now out.old result out.new }
{
    let mut table = [0u16; 1024];
    let mut jumps = [0u16; 1024];
    convert_with(store, stored, sheet, &mut table, &mut jumps, out)
}

// 1 to 6, 14, 15, 20 and 10, the first that applies, and then no byte changes; or the converted sheet over the front of the buffer.
pub fn convert(store: &[u32], sheet: &[u8], out: &mut [u8]) -> Converted
    ensures { ConvertSays store.now sheet.now out.old result out.new }
{
    match look_over(store) {
        Err(flaw) => Converted::refused(flaw.number(), 0),
        Ok(stored) => convert_sound(store, stored, sheet, out),
    }
}
