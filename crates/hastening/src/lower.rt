// Names lowered: the class of a row is again the lowest row of it.
ghost use Rattle.std.specs.Prelude.{◌≡◌, ◌≤◌, ◌<◌, length};
ghost use Rattle.rounds.specs.Classes.{class_of};
ghost use Rattle.names.specs.Lowers.{key_of};
ghost use Rattle.hastening.specs.Lowerings.{Emptied, Lowerable, LoweredFrom, FirstSays};

use rows::{entry, put_entry};
use signatures::signature::BUCKETS;

// Mark and name in one number.
fn key_of(cls: &[u16], marks: &[u16], u: usize) -> usize
    requires { (u < length cls.now) × (u < length marks.now) }
    ensures { result ≡ key_of (class_of cls.now) (class_of marks.now) u }
{
    let name = entry(cls, u);
    if entry(marks, u) == 1 {
        return name;
    }
    name + BUCKETS
}

// The first row with a key; an entry is a row and one more.
fn first_of(links: &mut [u16], k: usize, u: usize) -> usize
    requires { (k < length links.old) × (u < 2048) }
    ensures { FirstSays links.old links.new k u result × (result < 65536) }
{
    let h = entry(links, k);
    if h == 0 {
        put_entry(links, k, u + 1);
        return u;
    }
    h - 1
}

// Asks: names of rows, marks of 0 or 1, and links that are all 0.
pub fn lower(cls: &mut [u16], marks: &[u16], links: &mut [u16], n: usize)
    requires { Lowerable n cls.old marks.now × Emptied links.old }
    ensures { LoweredFrom n cls.old marks.now cls.new }
{
    for u in 0..n {
        let h = first_of(links, key_of(cls, marks, u), u);
        put_entry(cls, u, h);
    }
}
