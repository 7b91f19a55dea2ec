// A store mended in place: dropped rows marked, the others cleaned, sorted, numbered and gathered. Meanwhile the list is working memory.
ghost use Rattle.std.specs.Prelude.{◌≡◌, ◌+◌, ◌-◌, ◌≤◌, ◌<◌, length};
ghost use Rattle.rules.specs.Lists.{widest};
ghost use Rattle.store.specs.Layout.{capacity_of, room};
ghost use Rattle.mends.specs.Dropped.{taken};
ghost use Rattle.mender.specs.Says.{MendSays};
ghost use Rattle.mender.specs.Steps.{MendAsks, Prepared, Zeros, FillAsks, ListFilled};

use classes::sort::sort;
use cleaning::clean;
use gathering::gather;
use marking::mark;
use renumbering::number;
use rows::viewing::View;
use store::capacity::{MOST_ROWS, capacity_of};
use store::count::in_use;
use store::row::ROOM;
use tallying::{Counts, count_all};

// The number of the table, and four counts of rows and words.
// It stays a struct: MendSays and the theorems speak of all parts at once, and C gets them all.
#[derive(Clone, Copy)]
pub struct Mended {
    pub number: u32,
    pub dropped: u32,
    pub wires: u32,
    pub merged: u32,
    pub cleared: u32,
}

impl Mended {
    // Beside a refusal nothing is counted.
    fn refused(number: u32) -> Mended
        ensures { result ≡ record { number = number; dropped = 0; wires = 0; merged = 0; cleared = 0 } }
    {
        Mended {
            number,
            dropped: 0,
            wires: 0,
            merged: 0,
            cleared: 0,
        }
    }
}

// A count above the capacity is taken as the capacity.
fn rows_taken(store: &[u32], most: usize, capacity: usize) -> usize
    requires { (0 < length store.now) × (capacity ≡ capacity_of most (length store.now)) }
    ensures { result ≡ taken most store.now }
{
    let rows = in_use(store);
    if capacity < rows {
        return capacity;
    }
    rows
}

// Dropped rows marked; the counts, while the words are still as they were; and each row the row of its box.
fn prepare(store: &mut [u32], most: usize, list: &mut [u32], n: usize) -> Counts
    requires { MendAsks most n store.old list.old }
    ensures { Prepared most n store.old list.old store.new list.new result.dropped result.wires
        result.cleared }
{
    mark(store, most, list, n);
    let counts = count_all(store, most, list, n);
    clean(store, most, list, n);
    counts
}

// The rows sorted, and each that is not marked numbered by its class. Handed back is the kept count.
fn fill_list(
    store: &[u32],
    most: usize,
    n: usize,
    list: &mut [u32],
    cls: &mut [u16],
    numbers: &mut [u16],
) -> usize
    requires { FillAsks most n store.now list.old cls.old numbers.old }
    ensures { ListFilled most n store.now list.old list.new result }
{
    let view = View {
        store,
        most,
        stored: n,
        bytes: &[],
        table: &[],
    };
    sort(&view, cls);
    number(list, cls, numbers, n)
}

// A row that is neither dropped nor a wire nor kept is merged.
fn done(counts: Counts, n: usize, kept: usize) -> Mended
    requires { (kept + counts.wires + counts.dropped ≤ n) × (n ≤ 1024) }
    ensures { result ≡ record {
      number = 0;
      dropped = counts.dropped;
      wires = counts.wires;
      merged = n - counts.dropped - counts.wires - kept;
      cleared = counts.cleared;
    } }
{
    let merged = (n - counts.dropped as usize - counts.wires as usize - kept) as u32;
    Mended {
        number: 0,
        dropped: counts.dropped,
        wires: counts.wires,
        merged,
        cleared: counts.cleared,
    }
}

// With classes and numbers lent.
fn mend_with(
    store: &mut [u32],
    most: usize,
    list: &mut [u32],
    n: usize,
    cls: &mut [u16],
    numbers: &mut [u16],
) -> Mended
    requires { MendAsks most n store.old list.old ×
        (length cls.old ≡ 1024) ×
        Zeros 1024 numbers.old }
    ensures { MendSays most store.old list.old result store.new list.new }
{
    let counts = prepare(store, most, list, n);
    let kept = fill_list(store, most, n, list, cls, numbers);
    gather(store, most, list, n);
    done(counts, n, kept)
}

fn mend_rows(store: &mut [u32], most: usize, list: &mut [u32], n: usize) -> Mended
    requires { MendAsks most n store.old list.old }
    ensures { MendSays most store.old list.old result store.new list.new }
{
    let mut cls = [0u16; MOST_ROWS];
    let mut numbers = [0u16; MOST_ROWS];
    mend_with(store, most, list, n, &mut cls, &mut numbers)
}

// A store whose rows have room for so many inputs.
// Asks: room for an input, and for no more than any row has. Callers pass ROOM.
pub fn mend_in(store: &mut [u32], most: usize, list: &mut [u32]) -> Mended
    requires { (0 < most) × (most ≤ widest) }
    ensures { MendSays most store.old list.old result store.new list.new }
{
    let Some(capacity) = capacity_of(store.len(), most) else {
        return Mended::refused(1);
    };
    let n = rows_taken(store, most, capacity);
    if list.len() < n {
        return Mended::refused(16);
    }
    mend_rows(store, most, list, n)
}

// Numbers 1 and 16, the first that applies; or the store mended, with a list of where each old row went.
pub fn mend(store: &mut [u32], list: &mut [u32]) -> Mended
    ensures { MendSays room store.old list.old result store.new list.new }
{
    mend_in(store, ROOM, list)
}
