// A store and a sheet looked at together: where they are lent, and with them the table that says where each sheet row is read.
ghost use Rattle.std.specs.Prelude.{◌≡◌, ◌<◌, ◌^◌};
ghost use Rattle.rows.specs.Joined.{source_of, drawn, joined, row_in};
ghost use Rattle.rows.specs.View.{InDrawn, InView, view_rows};
ghost use Rattle.store.specs.Rows.{RowThere, row_of};

use crate::{entry, sheet_row};
use store::row::{ROOM, Row, read_row};

// The store's words, with room for so many inputs a row and so many rows in use; the sheet's bytes; and an entry for each sheet row that is
// looked at.
#[derive(Clone, Copy)]
pub struct View<'a> {
    pub store: &'a [u32],
    pub most: usize,
    pub stored: usize,
    pub bytes: &'a [u8],
    pub table: &'a [u16],
}

// A row of the store. Where its room is the register's the compiler knows it, and reads the inputs without a loop.
fn stored_row(store: &[u32], most: usize, u: usize) -> Row
    requires { RowThere most store.now u }
    ensures { result ≡ row_of most store.now u }
{
    if most == ROOM {
        return read_row(store, ROOM, u);
    }
    read_row(store, most, u)
}

impl View<'_> {
    // How many rows are looked at.
    // Asks: their number fits. Those of a store and a sheet are at most 2,048.
    pub fn rows(&self) -> usize
        requires { view_rows (source_of self.now) self.now.table.now < 2 ^ 64 }
        ensures { result ≡ view_rows (source_of self.now) self.now.table.now }
    {
        self.stored + self.table.len()
    }

    // Row u as it is drawn, a wire too.
    // Asks: the rows' memory is as a view asks, with the table of their places, and the row is one of them.
    #[inline(always)]
    pub fn read_drawn(&self, u: usize) -> Row
        requires { InDrawn (source_of self.now) self.now.table.now u }
        ensures { result ≡ row_in (drawn (source_of self.now)) u }
    {
        if u < self.stored {
            return stored_row(self.store, self.most, u);
        }
        sheet_row(self.bytes, self.stored, entry(self.table, u - self.stored))
    }

    // Row u where its wires lead to: a sheet row's entry is the place of the row to read.
    // Asks: the view's memory is as a view asks, and the row is one of its rows. Callers look at the rows below the view's count.
    #[inline(always)]
    pub fn read(&self, u: usize) -> Row
        requires { InView (source_of self.now) self.now.table.now u }
        ensures { result ≡ row_in (joined (source_of self.now)) u }
    {
        if u < self.stored {
            return stored_row(self.store, self.most, u);
        }
        let at = entry(self.table, u - self.stored);
        sheet_row(self.bytes, self.stored, at)
    }
}
