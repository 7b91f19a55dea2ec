// The whole front of an insert: the sheet read, where its inputs point, and where its wires lead.
#![tactic(auto)]

ghost use Rattle.std.specs.Prelude.{◌≡◌, ◌≤◌, length};
ghost use Rattle.fronting.specs.Front.{drawn_list, old_drawn_list, Passed, ToldSays, DrawnSays};

use sheet::fault::Fault;
use sheet::front::{old_front, sheet_front};
use sheet::places::fill_places;
use wiring::testing::{WireFault, test_wires};

// The table of row places filled, and the wires of the sheet told. A fault of wires starts at no byte.
fn wires_told(
    sheet: &[u8],
    stored: usize,
    rows: usize,
    table: &mut [u16],
    jumps: &mut [u16],
) -> Result<usize, Fault>
    requires { Passed sheet.now stored rows × (length table.old ≡ 1024) × (1024 ≤ length jumps.old) }
    ensures { ToldSays sheet.now stored table.new jumps.new result }
{
    fill_places(sheet, rows, table);
    match test_wires(sheet, &table[..rows], jumps) {
        Ok(()) => Ok(rows),
        Err(WireFault::Short) => Err(Fault::new(14, 0)),
        Err(WireFault::Looped) => Err(Fault::new(15, 0)),
    }
}

// Numbers 3, 4, 5, 19, 6, 14 and 15; or the sheet's rows, the places at which they start, and where their wires lead.
// Asks: a table of 1,024 entries, and jumps of as many.
pub fn drawn_front(sheet: &[u8], table: &mut [u16], jumps: &mut [u16]) -> Result<usize, Fault>
    requires { (length table.old ≡ 1024) × (1024 ≤ length jumps.old) }
    ensures { DrawnSays (drawn_list sheet.now) sheet.now 0 table.new jumps.new result }
{
    let rows = sheet_front(sheet)?;
    wires_told(sheet, 0, rows, table, jumps)
}

// The same for an old sheet, against a store with so many rows in use: numbers 3 to 6, 14 and 15.
// Asks: a table of 1,024 entries, and jumps of as many.
pub fn old_drawn_front(
    sheet: &[u8],
    stored: usize,
    table: &mut [u16],
    jumps: &mut [u16],
) -> Result<usize, Fault>
    requires { (length table.old ≡ 1024) × (1024 ≤ length jumps.old) }
    ensures { DrawnSays (old_drawn_list sheet.now stored) sheet.now stored table.new jumps.new result }
{
    let rows = old_front(sheet, stored)?;
    wires_told(sheet, stored, rows, table, jumps)
}
