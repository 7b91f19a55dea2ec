// Marks of whole classes. A class has its flag in the links, behind the entries of the rows, at the place of its lowest row.
ghost use Rattle.std.specs.Prelude.{◌≡◌, ◌≤◌, ◌<◌, length};
ghost use Rattle.rounds.specs.Placing.{Classes};
ghost use Rattle.choosing.specs.Marked.{ByClass, FlagAt};

use rows::{entry, put_entry};
use signatures::entries::clear;
use signatures::signature::BUCKETS;

// Where the flag of row u's class stands.
// Asks: classes by their lowest rows, and a row. Here and below, the sorting keeps them so.
pub fn flag_at(cls: &[u16], n: usize, u: usize) -> usize
    requires { Classes n cls.now × (u < n) }
    ensures { FlagAt cls.now u result }
{
    BUCKETS + entry(cls, u)
}

// One more, up to three.
fn count_one(links: &mut [u16], k: usize)
    requires { k < length links.old }
{
    let many = entry(links, k);
    if many > 2 {
        return;
    }
    put_entry(links, k, many + 1);
}

// How many rows each class has, up to three.
fn count_rows(cls: &[u16], links: &mut [u16], n: usize)
    requires { Classes n cls.now × (length links.old ≡ 4096) }
{
    for u in 0..n {
        count_one(links, flag_at(cls, n, u));
    }
}

// A flag for a class of one row, or of two where pairs are wanted.
fn flag_of(many: usize, pairs: bool) -> usize
    ensures { result < 65536 }
{
    if many == 1 {
        return 1;
    }
    if many == 2 && pairs {
        return 1;
    }
    0
}

// A row alone in its class is of its own tree, as far as is known. A class of two is often one tree in a store and once more in a sheet.
fn flag_small(links: &mut [u16], n: usize, pairs: bool)
    requires { (n ≤ 2048) × (length links.old ≡ 4096) }
{
    for u in 0..n {
        let flag = flag_of(entry(links, BUCKETS + u), pairs);
        put_entry(links, BUCKETS + u, flag);
    }
}

// Each row's mark is the flag of its class.
// Asks: classes by their lowest rows, a mark for each row, and links. Here and below, the sorting keeps them so.
pub fn by_class(cls: &[u16], marks: &mut [u16], links: &[u16], n: usize)
    requires { Classes n cls.now × (n ≤ length marks.old) × (length links.now ≡ 4096) }
    ensures { ByClass n cls.now marks.new }
{
    for u in 0..n {
        let flag = entry(links, flag_at(cls, n, u));
        put_entry(marks, u, flag);
    }
}

// The small classes flagged, and their rows marked.
// Asks: the same.
pub fn mark_small(cls: &[u16], marks: &mut [u16], links: &mut [u16], n: usize, pairs: bool)
    requires { Classes n cls.now × (n ≤ length marks.old) × (length links.old ≡ 4096) }
    ensures { ByClass n cls.now marks.new }
{
    clear(links, 4096);
    count_rows(cls, links, n);
    flag_small(links, n, pairs);
    by_class(cls, marks, links, n);
}
