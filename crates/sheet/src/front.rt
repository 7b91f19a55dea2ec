// The front of an insert: the sheet read, and where its inputs point.
ghost use Rattle.std.specs.Prelude.{Err};
ghost use Rattle.sheet.specs.Front.{sheet_list, old_sheet_list, Astray, FrontSays};

use crate::fault::Fault;
use crate::points::{STORE_NUMBERS, inputs_point};
use crate::reader::read_sheet;

// An input points nowhere: 19 where some input names a row of a store, else 6 with the input's place.
fn astray(sheet: &[u8], rows: usize, place: usize) -> Fault
    requires { Astray sheet.now rows place }
    ensures { FrontSays (sheet_list sheet.now) sheet.now 0 (Err result) }
{
    if inputs_point(sheet, rows, STORE_NUMBERS, 0).is_some() {
        return Fault::new(19, 0);
    }
    Fault::new(6, place)
}

// Numbers 3, 4, 5, 19 and 6, with the byte at which the fault starts; or the sheet's rows. A sheet that is right is scanned once.
pub fn sheet_front(sheet: &[u8]) -> Result<usize, Fault>
    ensures { FrontSays (sheet_list sheet.now) sheet.now 0 result }
{
    let rows = read_sheet(sheet)?;
    match inputs_point(sheet, rows, rows, 0) {
        None => Ok(rows),
        Some(at) => Err(astray(sheet, rows, at)),
    }
}

// The same for an old sheet, whose inputs may name rows of the store it was drawn against, with so many in use: numbers 3 to 6.
pub fn old_front(sheet: &[u8], stored: usize) -> Result<usize, Fault>
    ensures { FrontSays (old_sheet_list sheet.now stored) sheet.now stored result }
{
    let rows = read_sheet(sheet)?;
    if let Some(at) = inputs_point(sheet, rows, rows, stored) {
        return Err(Fault::new(6, at));
    }
    Ok(rows)
}
