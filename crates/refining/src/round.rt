// A round: each row stays with the lowest row of its old class if their signatures are equal; otherwise it goes with the new head
// that has its signature, or becomes one.
ghost use Rattle.std.specs.Prelude.{◌+◌, ◌<◌, ◌≤◌, length};
ghost use Rattle.rounds.specs.Classes.{class_of};
ghost use Rattle.rounds.specs.Placing.{Stale};
ghost use Rattle.rows.specs.Joined.{source_of, joined};
ghost use Rattle.rows.specs.View.{view_rows, Entries};
ghost use Rattle.signatures.specs.Inside.{Sighted};
ghost use Rattle.refining.specs.Seeking.{Round, Later, PlaceSays};

use crate::chain::{begin, seek, start_of};
use rows::viewing::View;
use rows::{entry, put_entry};
use signatures::signature::{bucket_of, same_signature, signature_of};
use std::num::wrapping_add_usize;
use store::row::ROOM;

// Where a row goes: with a head, or as a new head to a bucket. Neither is an error or nothing, so it is no Option and no Result.
#[derive(Clone, Copy)]
enum Place {
    With(usize),
    New(usize),
}

#[inline(always)]
fn find_head(view: &View, cls: &[u16], new: &[u16], links: &[u16], u: usize, old: usize) -> Place
    requires sighted { Sighted (source_of view.now) view.now.table.now cls.now }
    requires later { Later (source_of view.now) view.now.table.now cls.now new.now links.now u old }
    ensures { PlaceSays (joined (source_of view.now)) (class_of cls.now) u result }
{
    let s = signature_of(view, cls, u);
    if same_signature(s, signature_of(view, cls, old)) {
        return Place::With(old);
    }
    let b = bucket_of(s);
    let h = seek(view, cls, new, links, s, old, u, start_of(cls, links, b));
    if h == 0 {
        Place::New(b)
    } else {
        Place::With(h)
    }
}

// Row u placed, after the rows before it. A new head counts 1: the count only tells how fast rounds go, and nothing is believed of it.
#[inline(always)]
fn place_row(view: &View, cls: &[u16], new: &mut [u16], links: &mut [u16], u: usize) -> usize
    requires sighted { Sighted (source_of view.now) view.now.table.now cls.now }
    requires round { Round (source_of view.now) view.now.table.now cls.now new.old links.old u }
    requires u_bound { u < view_rows (source_of view.now) view.now.table.now }
    ensures { Round (source_of view.now) view.now.table.now cls.now new.new
        links.new (u + 1) }
{
    let old = entry(cls, u);
    if old == u {
        put_entry(new, u, u);
        return 0;
    }
    match find_head(view, cls, new, links, u, old) {
        Place::With(h) => {
            put_entry(new, u, h);
            0
        }
        Place::New(b) => {
            begin(cls, new, links, u, b);
            1
        }
    }
}

// All rows placed.
#[inline(always)]
fn refine_all(view: &View, cls: &[u16], new: &mut [u16], links: &mut [u16]) -> usize
    requires sighted { Sighted (source_of view.now) view.now.table.now cls.now }
    requires entries { Entries (source_of view.now) view.now.table.now new.old ×
        Stale (view_rows (source_of view.now) view.now.table.now) cls.now links.old }
    ensures { Round (source_of view.now) view.now.table.now cls.now new.new
        links.new (view_rows (source_of view.now) view.now.table.now) }
{
    let n = view.rows();
    let mut made = 0;
    for u in 0..n {
        let more = place_row(view, cls, new, links, u);
        made = wrapping_add_usize(made, more);
    }
    made
}

// All rows placed. As many new heads as it made are handed back.
// Rows with the register's own room have a loop of their own: a view holds the room, and only there does the compiler know it.
// Asks: a view with classes of its rows, new classes with an entry for each row, and links without a new head. The sorting shows it round by round.
pub fn refine(view: &View, cls: &[u16], new: &mut [u16], links: &mut [u16]) -> usize
    requires sighted { Sighted (source_of view.now) view.now.table.now cls.now }
    requires entries { Entries (source_of view.now) view.now.table.now new.old ×
        Stale (view_rows (source_of view.now) view.now.table.now) cls.now links.old }
    ensures { Round (source_of view.now) view.now.table.now cls.now new.new
        links.new (view_rows (source_of view.now) view.now.table.now) }
{
    if view.most == ROOM {
        let own = View {
            most: ROOM,
            ..*view
        };
        return refine_all(&own, cls, new, links);
    }
    refine_all(view, cls, new, links)
}
