// The shape of a store: everything of sound but that no two rows have the same tree.
ghost use Rattle.std.specs.Prelude.{◌≡◌, ◌≤◌, ◌<◌};
ghost use Rattle.rules.specs.Lists.{widest};
ghost use Rattle.rules.specs.Answers.{Says};
ghost use Rattle.wires.specs.Wires.{is_wire};
ghost use Rattle.store.specs.Layout.{label_of};
ghost use Rattle.store.specs.Rows.{RowThere};
ghost use Rattle.store.specs.Sound.{InputShaped, RowShaped, ShapeSays, flaw_number};

use crate::capacity::capacity_of;
use crate::row::{count_of, input_of, label_of};
use wires::is_wire;

// What keeps a store from being sound: it has no words, or its words are no sound store.
#[derive(Clone, Copy, PartialEq, Eq)]
pub enum Flaw {
    NoWords,
    Broken,
}

impl Flaw {
    // The number of the table.
    pub fn number(self) -> u32
        ensures { result ≡ flaw_number self }
    {
        match self {
            Flaw::NoWords => 1,
            Flaw::Broken => 2,
        }
    }
}

// A used input is below the rows in use, and an unused input word is zero.
fn input_shaped(store: &[u32], most: usize, rows: usize, n: usize, j: usize) -> bool
    requires { RowThere most store.now n × (j < most) }
    ensures { Says (InputShaped most store.now rows n j) result }
{
    let input = input_of(store, most, n, j) as usize;
    if j < count_of(store, most, n) as usize {
        input < rows
    } else {
        input == 0
    }
}

// Whether a row is a wire.
fn wire_there(store: &[u32], most: usize, n: usize) -> bool
    requires { RowThere most store.now n }
    ensures { result ≡ is_wire (label_of most store.now n) }
{
    is_wire(label_of(store, most, n))
}

// A row is no wire, its input count is within the limit, and each of its input words is as it should be.
fn row_shaped(store: &[u32], most: usize, rows: usize, n: usize) -> bool
    requires { RowThere most store.now n }
    ensures { Says (RowShaped most store.now rows n) result }
{
    if wire_there(store, most, n) {
        return false;
    }
    if most < count_of(store, most, n) as usize {
        return false;
    }
    (0..most).all(|j| input_shaped(store, most, rows, n, j))
}

// The rows in use of a shaped store.
// Asks: a row has room for no more inputs than any row has. Callers pass ROOM.
pub fn shape_of(store: &[u32], most: usize) -> Result<usize, Flaw>
    requires { most ≤ widest }
    ensures { ShapeSays most store.now result }
{
    let Some(capacity) = capacity_of(store.len(), most) else {
        return Err(Flaw::NoWords);
    };
    let rows = store[0] as usize;
    if capacity < rows {
        return Err(Flaw::Broken);
    }
    if (0..rows).all(|n| row_shaped(store, most, rows, n)) {
        Ok(rows)
    } else {
        Err(Flaw::Broken)
    }
}
