// Round after round, until nothing moves. Where rounds bring too little, rows are named between them.
ghost use Rattle.std.specs.Prelude.{◌≡◌, ◌<◌, ◌≤◌, length};
ghost use Rattle.rows.specs.Joined.{source_of};
ghost use Rattle.rows.specs.View.{Viewed, Entries};
ghost use Rattle.hastening.specs.Ready.{Ready, Underway};
ghost use Rattle.classes.specs.Settled.{SortedOver};
ghost use Rattle.classes.specs.Staged.{SomeSays};

use crate::runs::some_rounds;
use choosing::choose::choose;
use hastening::hasten::hasten;
use rows::viewing::View;
use rows::{JOINED_ROWS, entry};
use signatures::entries::clear;
use std::num::wrapping_add_usize;

// Shallow rows are sorted in so many rounds, or nearly, and pay for no names.
const FIRST_ROUNDS: usize = 32;

// After the first naming so many rounds, after the next twice as many, and so on.
const LEAST_ROUNDS: usize = 2;

// Rounds until nothing moves.
fn run_rounds(view: &View, cls: &mut [u16], new: &mut [u16], links: &mut [u16])
    requires { Ready (source_of view.now) view.now.table.now cls.old new.old links.old }
    ensures { SortedOver (source_of view.now) view.now.table.now cls.old
        cls.new }
{
    while let Some(_) = some_rounds(view, cls, new, links, JOINED_ROWS, JOINED_ROWS) {}
}

// How many classes there are.
fn heads_of(cls: &[u16], n: usize) -> usize
    requires { n ≤ length cls.now }
{
    let mut heads = 0;
    for u in 0..n {
        heads = wrapping_add_usize(heads, head_at(cls, u));
    }
    heads
}

fn head_at(cls: &[u16], u: usize) -> usize
    requires { u < length cls.now }
{
    if entry(cls, u) == u {
        return 1;
    }
    0
}

// Between rounds: some classes are taken whole, and all rows named that can be by them.
fn hurry(view: &View, cls: &mut [u16], new: &mut [u16], links: &mut [u16], pairs: bool, loops: bool)
    requires { Ready (source_of view.now) view.now.table.now cls.old new.old links.old ×
        (length links.old ≡ 4096) }
    ensures { Underway (source_of view.now) view.now.table.now cls.old
        cls.new new.new links.new }
{
    choose(view, cls, new, links, pairs, loops);
    hasten(view, cls, new, links);
}

// Rows named, and at most so many rounds. Loops are looked for where a naming before did not do.
fn stage(
    view: &View,
    cls: &mut [u16],
    new: &mut [u16],
    links: &mut [u16],
    turns: usize,
    pairs: bool,
) -> Option<usize>
    requires { Ready (source_of view.now) view.now.table.now cls.old new.old links.old ×
        (length links.old ≡ 4096) }
    ensures { SomeSays (source_of view.now) view.now.table.now cls.old
        cls.new new.new links.new result }
{
    hurry(view, cls, new, links, pairs, turns > LEAST_ROUNDS);
    let heads = heads_of(cls, view.rows());
    some_rounds(view, cls, new, links, turns, heads)
}

// Stages of more and more rounds, and then rounds until nothing moves. Classes of two are taken every other time: they cut loops that
// stand in a store and once more in a sheet, and where they are not of one tree the next stage parts them.
fn stages(view: &View, cls: &mut [u16], new: &mut [u16], links: &mut [u16])
    requires { Ready (source_of view.now) view.now.table.now cls.old new.old links.old ×
        (length links.old ≡ 4096) }
    ensures { SortedOver (source_of view.now) view.now.table.now cls.old
        cls.new }
{
    let mut turns = LEAST_ROUNDS;
    let mut pairs = true;
    // The turns double, so that no range counts them.
    while turns < JOINED_ROWS {
        let Some(_) = stage(view, cls, new, links, turns, pairs) else {
            return;
        };
        turns = 2 * turns;
        pairs = !pairs;
    }
    run_rounds(view, cls, new, links);
}

fn sort_begun(view: &View, cls: &mut [u16], new: &mut [u16], links: &mut [u16])
    requires { Ready (source_of view.now) view.now.table.now cls.old new.old links.old ×
        (length links.old ≡ 4096) }
    ensures { SortedOver (source_of view.now) view.now.table.now cls.old
        cls.new }
{
    let Some(_) = some_rounds(view, cls, new, links, FIRST_ROUNDS, 1) else {
        return;
    };
    stages(view, cls, new, links);
}

// Asks: a view, and a class for each of its rows. Entries past them stand.
pub fn sort(view: &View, cls: &mut [u16])
    requires { Viewed (source_of view.now) view.now.table.now ×
        Entries (source_of view.now) view.now.table.now cls.old }
    ensures { SortedOver (source_of view.now) view.now.table.now cls.old
        cls.new }
{
    let mut new = [0u16; JOINED_ROWS];
    // An entry for each row, and one for each bucket.
    let mut links = [0u16; 4096];
    clear(cls, view.rows());
    sort_begun(view, cls, &mut new, &mut links);
}
