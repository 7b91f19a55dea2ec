// Chains of new heads: a row looks along the chain of its bucket, and a chain is made longer at its front.
ghost use Rattle.std.specs.Prelude.{◌≡◌, ◌+◌, ◌<◌, ◌≤◌, length, slice_set};
ghost use Rattle.rules.specs.Answers.{Says};
ghost use Rattle.rounds.specs.Classes.{class_of};
ghost use Rattle.rounds.specs.Placing.{head_in, start_of};
ghost use Rattle.rows.specs.Joined.{source_of, joined};
ghost use Rattle.rows.specs.View.{view_rows};
ghost use Rattle.signatures.specs.Inside.{Sighted};
ghost use Rattle.refining.specs.Seeking.{GoesWith, SeekingAt, Sought};

use rows::viewing::View;
use rows::{entry, put_entry};
use signatures::signature::{BUCKETS, Signature, same_signature, signature_of};

// Whether head h is of an old class and has a signature.
#[inline(always)]
fn goes_with(view: &View, cls: &[u16], s: Signature, old: usize, h: usize) -> bool
    requires sighted { Sighted (source_of view.now) view.now.table.now cls.now }
    requires h_bound { h < view_rows (source_of view.now) view.now.table.now }
    ensures { Says (GoesWith (joined (source_of view.now)) (class_of cls.now) s old h) result }
{
    if entry(cls, h) != old {
        return false;
    }
    same_signature(s, signature_of(view, cls, h))
}

// The new head that goes with row u, or 0: row 0 is never a new head.
// Asks: the row's signature and old class, and where its chain begins. The new classes say which heads are new; they are not read.
#[inline(always)]
pub fn seek(
    view: &View,
    cls: &[u16],
    new: &[u16],
    links: &[u16],
    s: Signature,
    old: usize,
    u: usize,
    first: usize,
) -> usize
    requires sighted { Sighted (source_of view.now) view.now.table.now cls.now }
    requires seeking_at { SeekingAt (source_of view.now) view.now.table.now cls.now new.now links.now s old u first }
    ensures { Sought (joined (source_of view.now)) cls.now new.now u result }
{
    let mut h = first;
    // It follows links, and counts nothing.
    while h != 0 {
        if goes_with(view, cls, s, old, h) {
            return h;
        }
        h = entry(links, h);
    }
    0
}

// Where the chain of a bucket begins. A head that was one before the round is of a round before, and the chain is empty: that is why
// no bucket is ever cleared.
// Asks: an entry for each row and each bucket, a bucket, and a class for its head. Here and below, the round keeps them so.
pub fn start_of(cls: &[u16], links: &[u16], b: usize) -> usize
    requires { (4096 ≤ length links.now) × (b < 2048) × (head_in links.now b < length cls.now) }
    ensures { (result ≡ start_of cls.now links.now b) × (result < 65536) }
{
    let h = entry(links, BUCKETS + b);
    if entry(cls, h) == h {
        return 0;
    }
    h
}

// Row u is its own class from now on, and comes first in its bucket.
// Asks: an entry for the row, and a bucket. Rows are below 2,048.
pub fn begin(cls: &[u16], new: &mut [u16], links: &mut [u16], u: usize, b: usize)
    requires { (u < length new.old) ×
        (4096 ≤ length links.old) ×
        (u < 2048) ×
        (b < 2048) ×
        (head_in links.old b < length cls.now) }
    ensures { (new.new ≡ slice_set new.old u u) ×
        (links.new ≡ slice_set (slice_set links.old u (start_of cls.now links.old b)) (2048 + b) u) }
{
    put_entry(new, u, u);
    let after = start_of(cls, links, b);
    put_entry(links, u, after);
    put_entry(links, BUCKETS + b, u);
}
