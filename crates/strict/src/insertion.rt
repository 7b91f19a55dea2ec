// The strict insert: the sheet is judged first, and then inserted as any other.
ghost use Rattle.std.specs.Prelude.{◌≡◌, length};
ghost use Rattle.sheet.specs.Points.{PointsNowhere};
ghost use Rattle.rows.specs.Tabled.{Tabled};
ghost use Rattle.fronting.specs.Front.{Wired};
ghost use Rattle.checking.specs.Check.{InShape};
ghost use Rattle.strict.specs.Strict.{StrictSays};

use crate::judge::judge_rows;
use fronting::drawn_front;
use inserting::Inserted;
use inserting::insertion::{insert_rows, refused_behind};
use rows::JOINED_ROWS;
use store::row::ROOM;
use store::shape::shape_of;

// The front has passed: 12 and 13, and then the plain insert.
fn strict_rows(
    store: &mut [u32],
    stored: usize,
    bytes: &[u8],
    table: &mut [u16],
    cls: &mut [u16],
    answers: &mut [u32],
) -> Inserted
    requires tabled { Tabled store.old bytes.now stored table.old }
    requires fact { (PointsNowhere bytes.now 0 → ⊥) × Wired bytes.now (length table.old) cls.old × (length cls.old ≡ 2048) }
    ensures { StrictSays store.old bytes.now answers.old result store.new answers.new }
{
    match judge_rows(bytes, table) {
        Err(fault) => refused_behind(store, stored, fault, cls),
        Ok(()) => insert_rows(store, stored, bytes, table, cls, answers),
    }
}

// Behind the shape, with a table and classes lent.
fn strict_with(
    store: &mut [u32],
    stored: usize,
    bytes: &[u8],
    table: &mut [u16],
    cls: &mut [u16],
    answers: &mut [u32],
) -> Inserted
    requires { InShape store.old stored × (length table.old ≡ 1024) × (length cls.old ≡ 2048) }
    ensures { StrictSays store.old bytes.now answers.old result store.new answers.new }
{
    match drawn_front(bytes, table, cls) {
        Err(fault) => refused_behind(store, stored, fault, cls),
        Ok(rows) => strict_rows(store, stored, bytes, &mut table[..rows], cls, answers),
    }
}

fn strict_shaped(store: &mut [u32], stored: usize, bytes: &[u8], answers: &mut [u32]) -> Inserted
    requires { InShape store.old stored }
    ensures { StrictSays store.old bytes.now answers.old result store.new answers.new }
{
    let mut table = [0u16; 1024];
    let mut cls = [0u16; JOINED_ROWS];
    strict_with(store, stored, bytes, &mut table, &mut cls, answers)
}

// Numbers 1 to 5, 19, 6, 14, 15, 12, 13, 7 and 8, the first that applies; or done.
pub fn insert_strict(store: &mut [u32], sheet: &[u8], answers: &mut [u32]) -> Inserted
    ensures { StrictSays store.old sheet.now answers.old result store.new answers.new }
{
    match shape_of(store, ROOM) {
        Err(flaw) => Inserted::refused(flaw.number(), 0),
        Ok(stored) => strict_shaped(store, stored, sheet, answers),
    }
}
