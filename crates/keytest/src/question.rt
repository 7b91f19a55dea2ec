// Whether bytes are a key: a readable sheet of at least one row, whose inputs all point to its own rows, without wires, the rows of different
// trees and in the order of the walk.
ghost use Rattle.std.specs.Prelude.{◌≡◌, ◌<◌, length};
ghost use Rattle.rules.specs.Answers.{Says};
ghost use Rattle.sheet.specs.Format.{row_count_of};
ghost use Rattle.rows.specs.Tabled.{Fronted, Tabled};
ghost use Rattle.wires.specs.Wires.{Plain};
ghost use Rattle.keys.specs.Sheets.{sheet_graph, IsKey, KeySays};
ghost use Rattle.keytest.specs.Asked.{SomeRows};

use crate::order::in_order;
use crate::plain::all_plain;
use classes::own::all_own;
use classes::sort::sort;
use rows::JOINED_ROWS;
use rows::viewing::View;
use sheet::front::sheet_front;
use sheet::places::fill_places;
use store::row::ROOM;

// The trees first, then the order.
fn is_key_view(store: &[u32], bytes: &[u8], table: &[u16], cls: &mut [u16]) -> bool
    requires tabled { Tabled store.now bytes.now 0 table.now × Plain (sheet_graph bytes.now) (length table.now) }
    requires bytes_nonzero { (0 < row_count_of bytes.now) × (length cls.old ≡ 2048) }
    ensures { Says (IsKey bytes.now) result }
{
    let view = View {
        store,
        most: ROOM,
        stored: 0,
        bytes,
        table,
    };
    sort(&view, cls);
    if !all_own(cls, table.len()) {
        return false;
    }
    in_order(&view)
}

// No wires, and then the rest.
fn is_key_placed(store: &[u32], bytes: &[u8], table: &[u16], cls: &mut [u16]) -> bool
    requires { Tabled store.now bytes.now 0 table.now × (0 < row_count_of bytes.now) × (length cls.old ≡ 2048) }
    ensures { Says (IsKey bytes.now) result }
{
    if !all_plain(bytes, table) {
        return false;
    }
    is_key_view(store, bytes, table, cls)
}

// The table of row places filled, and the rows behind it looked at.
fn is_key_with(store: &[u32], bytes: &[u8], rows: usize, table: &mut [u16], cls: &mut [u16]) -> bool
    requires fronted { Fronted store.now bytes.now 0 rows × (0 < row_count_of bytes.now) }
    requires table_len { (length table.old ≡ 1024) × (length cls.old ≡ 2048) }
    ensures { Says (IsKey bytes.now) result }
{
    fill_places(bytes, rows, table);
    is_key_placed(store, bytes, &table[..rows], cls)
}

// Beside a store without rows, of one word: the rows of the sheet are read and sorted as those of any sheet are.
fn is_key_rows(bytes: &[u8], rows: usize) -> bool
    requires { SomeRows bytes.now rows }
    ensures { Says (IsKey bytes.now) result }
{
    let store = [0u32; 1];
    let mut table = [0u16; 1024];
    let mut cls = [0u16; JOINED_ROWS];
    is_key_with(&store, bytes, rows, &mut table, &mut cls)
}

// Yes exactly when the bytes are a key. Nothing is asked of them.
pub fn is_key(bytes: &[u8]) -> bool
    ensures { KeySays bytes.now result }
{
    match sheet_front(bytes) {
        Err(_) => false,
        Ok(0) => false,
        Ok(rows) => is_key_rows(bytes, rows),
    }
}
