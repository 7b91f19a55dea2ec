// The row that is added for a row of the sheet: the sheet's row with each input as the number of its tree.
ghost use Rattle.std.specs.Prelude.{◌≡◌};
ghost use Rattle.rules.specs.Lists.{in_room, widest};
ghost use Rattle.rounds.specs.Classes.{class_of};
ghost use Rattle.writing.specs.Asked.{InputsThere, Seen, OfSheet};
ghost use Rattle.writing.specs.Added.{numbered_input, NewRowOf};

use crate::numbers::number_of;
use rows::{entry, sheet_row};
use store::row::{ROOM, Row};

// The first inputs of a row, each as the number of its tree, and zero past them.
fn numbered(cls: &[u16], numbers: &[u16], inputs: [u32; ROOM], count: usize) -> [u32; ROOM]
    requires { InputsThere cls.now numbers.now inputs count }
    ensures { result ≡ in_room widest (numbered_input (class_of cls.now) inputs) count }
{
    let mut found = [0u32; ROOM];
    for j in 0..count {
        found[j] = number_of(cls, numbers, inputs[j] as usize);
    }
    found
}

// The row that is added for row u. It reads no word of the store, which changes meanwhile.
// Asks: a row of the sheet of a view, whose rows have classes and numbers.
pub fn new_row(
    stored: usize,
    bytes: &[u8],
    table: &[u16],
    cls: &[u16],
    numbers: &[u16],
    u: usize,
) -> Row
    requires { Seen stored bytes.now table.now cls.now numbers.now × OfSheet stored table.now u }
    ensures { NewRowOf stored bytes.now (class_of cls.now) u result }
{
    let row = sheet_row(bytes, stored, entry(table, u - stored));
    let inputs = row.inputs;
    Row {
        label: row.label,
        count: row.count,
        inputs: numbered(cls, numbers, inputs, row.count as usize),
    }
}
