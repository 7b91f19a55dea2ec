// Inserting a sheet: the front (numbers 1 to 5, 19, 6, 14 and 15), and the back (7, 8, the write).
ghost use Rattle.std.specs.Prelude.{◌≡◌, ◌+◌, ◌-◌, ◌≤◌, ◌<◌, length};
ghost use Rattle.rules.specs.Answers.{Says};
ghost use Rattle.store.specs.Layout.{capacity_of, in_use, room};
ghost use Rattle.store.specs.Sound.{Sound};
ghost use Rattle.checking.specs.Check.{InShape};
ghost use Rattle.inserting.specs.Insert.{InsertSays};
ghost use Rattle.sheet.specs.Points.{PointsNowhere};
ghost use Rattle.rows.specs.Tabled.{Tabled};
ghost use Rattle.wiring.specs.Spots.{Spotted};
ghost use Rattle.fronting.specs.Front.{Wired};
ghost use Rattle.inserting.specs.Backed.{Backed, Totalled};
ghost use Rattle.inserting.specs.Behind.{Behind};

use checking::distinct::distinct_in;
use classes::own::all_own;
use classes::sort::sort;
use fronting::drawn_front;
use rows::JOINED_ROWS;
use rows::viewing::View;
use sheet::fault::Fault;
use store::capacity::capacity_of;
use store::count::in_use;
use store::row::ROOM;
use store::shape::shape_of;
use wiring::skip::skip;
use writing::numbers::count_trees;
use writing::whole::write_all;

// The number of the table, the rows added, and the byte of the sheet at which the fault starts (0 unless the number is 3 to 6).
// It stays a struct: InsertSays and the theorems speak of all parts at once, and C gets them all.
#[derive(Clone, Copy)]
pub struct Inserted {
    pub number: u32,
    pub added: u32,
    pub place: usize,
}

impl Inserted {
    // Beside a refusal nothing is added.
    pub fn refused(number: u32, place: usize) -> Inserted
        ensures { result ≡ record { number = number; added = 0; place = place } }
    {
        Inserted {
            number,
            added: 0,
            place,
        }
    }
}

// Whether a store of so many words has room for so many rows.
fn has_room(words: usize, rows: usize) -> bool
    requires { 0 < words }
    ensures { Says (rows ≤ capacity_of room words) result }
{
    let Some(capacity) = capacity_of(words, ROOM) else {
        return false;
    };
    rows <= capacity
}

// The rows added: the trees in all less those that the store had.
fn added(total: usize, stored: usize) -> u32
    requires { (stored ≤ total) × (total ≤ 2048) }
    ensures { result ≡ total - stored }
{
    (total - stored) as u32
}

// 8, or the write: the trees are counted.
fn finish(
    store: &mut [u32],
    stored: usize,
    bytes: &[u8],
    table: &[u16],
    cls: &[u16],
    answers: &mut [u32],
    total: usize,
) -> Inserted
    requires { Totalled store.old bytes.now stored table.now cls.now answers.old total }
    ensures { InsertSays store.old bytes.now answers.old result store.new answers.new }
{
    if !has_room(store.len(), total) {
        return Inserted::refused(8, 0);
    }
    write_all(store, ROOM, stored, bytes, table, cls, answers);
    Inserted {
        number: 0,
        added: added(total, stored),
        place: 0,
    }
}

// The back: 7, 8, the write. The rows are sorted.
fn back(
    store: &mut [u32],
    stored: usize,
    bytes: &[u8],
    table: &[u16],
    cls: &[u16],
    answers: &mut [u32],
) -> Inserted
    requires { Backed store.old bytes.now stored table.now cls.now }
    ensures { InsertSays store.old bytes.now answers.old result store.new answers.new }
{
    if answers.len() < table.len() {
        return Inserted::refused(7, 0);
    }
    let total = count_trees(cls, stored + table.len());
    finish(store, stored, bytes, table, cls, answers, total)
}

// The rows sorted together with the store's: two store rows of one class are a store that is not sound.
fn insert_view(
    store: &mut [u32],
    stored: usize,
    bytes: &[u8],
    table: &[u16],
    cls: &mut [u16],
    answers: &mut [u32],
) -> Inserted
    requires { Spotted store.old bytes.now stored table.now × (length cls.old ≡ 2048) }
    ensures { InsertSays store.old bytes.now answers.old result store.new answers.new }
{
    let view = View {
        store,
        most: ROOM,
        stored,
        bytes,
        table,
    };
    sort(&view, cls);
    if !all_own(cls, stored) {
        return Inserted::refused(2, 0);
    }
    back(store, stored, bytes, table, cls, answers)
}

// The front has passed: each row is read where its wires lead, and the rows are inserted.
// Asks: a store in shape, a sheet without store numbers, the table of its row places, and where the wires of each row lead.
pub fn insert_rows(
    store: &mut [u32],
    stored: usize,
    bytes: &[u8],
    table: &mut [u16],
    cls: &mut [u16],
    answers: &mut [u32],
) -> Inserted
    requires tabled { Tabled store.old bytes.now stored table.old }
    requires fact { (PointsNowhere bytes.now 0 → ⊥) × Wired bytes.now (length table.old) cls.old × (length cls.old ≡ 2048) }
    ensures { InsertSays store.old bytes.now answers.old result store.new answers.new }
{
    skip(table, cls);
    insert_view(store, stored, bytes, table, cls, answers)
}

// A refusal of the sheet stands only where the store is sound.
// Asks: a store in shape, and 2,048 classes.
pub fn refused_behind(store: &[u32], stored: usize, fault: Fault, cls: &mut [u16]) -> Inserted
    requires { InShape store.now stored × (length cls.old ≡ 2048) }
    ensures { Behind store.now fault.number fault.place result }
{
    if distinct_in(store, stored, cls) {
        return Inserted::refused(fault.number, fault.place);
    }
    Inserted::refused(2, 0)
}

// Behind the shape, with a table and classes lent.
// Its like in the strict insert ends in another step under another contract; one function would have to carry both.
fn insert_with(
    store: &mut [u32],
    stored: usize,
    bytes: &[u8],
    table: &mut [u16],
    cls: &mut [u16],
    answers: &mut [u32],
) -> Inserted
    requires { InShape store.old stored × (length table.old ≡ 1024) × (length cls.old ≡ 2048) }
    ensures { InsertSays store.old bytes.now answers.old result store.new answers.new }
{
    match drawn_front(bytes, table, cls) {
        Err(fault) => refused_behind(store, stored, fault, cls),
        Ok(rows) => insert_rows(store, stored, bytes, &mut table[..rows], cls, answers),
    }
}

fn insert_shaped(store: &mut [u32], stored: usize, bytes: &[u8], answers: &mut [u32]) -> Inserted
    requires { InShape store.old stored }
    ensures { InsertSays store.old bytes.now answers.old result store.new answers.new }
{
    let mut table = [0u16; 1024];
    let mut cls = [0u16; JOINED_ROWS];
    insert_with(store, stored, bytes, &mut table, &mut cls, answers)
}

// Numbers 1 to 5, 19, 6, 14, 15, 7 and 8, the first that applies; or done.
pub fn insert(store: &mut [u32], sheet: &[u8], answers: &mut [u32]) -> Inserted
    ensures { InsertSays store.old sheet.now answers.old result store.new answers.new }
{
    match shape_of(store, ROOM) {
        Err(flaw) => Inserted::refused(flaw.number(), 0),
        Ok(stored) => insert_shaped(store, stored, sheet, answers),
    }
}

// Into a sound store, with a table and classes lent.
fn insert_known(
    store: &mut [u32],
    stored: usize,
    sheet: &[u8],
    table: &mut [u16],
    cls: &mut [u16],
    answers: &mut [u32],
) -> Inserted
    requires { InShape store.old stored × Sound room store.old × (length table.old ≡ 1024) × (length cls.old ≡ 2048) }
    ensures { InsertSays store.old sheet.now answers.old result store.new answers.new }
{
    match drawn_front(sheet, table, cls) {
        Err(fault) => Inserted::refused(fault.number, fault.place),
        Ok(rows) => {
            if rows == 0 {
                Inserted {
                    number: 0,
                    added: 0,
                    place: 0,
                }
            } else {
                insert_rows(store, stored, sheet, &mut table[..rows], cls, answers)
            }
        }
    }
}

// The same for a store that is known to be sound: it is not checked again, and nothing is sorted for a sheet without rows.
// Asks: a sound store with words. The program's store is empty at first, and every insert leaves it sound.
pub fn insert_sound(store: &mut [u32], sheet: &[u8], answers: &mut [u32]) -> Inserted
    requires { (0 < length store.old) × Sound room store.old }
    ensures { InsertSays store.old sheet.now answers.old result store.new answers.new }
{
    let stored = in_use(store);
    let mut table = [0u16; 1024];
    let mut cls = [0u16; JOINED_ROWS];
    insert_known(store, stored, sheet, &mut table, &mut cls, answers)
}
