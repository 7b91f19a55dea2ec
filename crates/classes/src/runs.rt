// Rounds one after another, until nothing moves or they bring too little.
ghost use Rattle.rows.specs.Joined.{source_of};
ghost use Rattle.hastening.specs.Ready.{Ready};
ghost use Rattle.classes.specs.Settled.{RoundSays};
ghost use Rattle.classes.specs.Staged.{RoundsSay};

use refining::round::refine;
use refining::settle::settle;
use rows::viewing::View;
use std::num::wrapping_add_usize;

// One round, and the new classes taken over where a row moved: how many heads it made, or nothing where it moved no row.
fn one_round(view: &View, cls: &mut [u16], new: &mut [u16], links: &mut [u16]) -> Option<usize>
    requires { Ready (source_of view.now) view.now.table.now cls.old new.old links.old }
    ensures { RoundSays (source_of view.now) view.now.table.now cls.old
        cls.new new.new links.new result }
{
    let made = refine(view, cls, new, links);
    settle(cls, new, view.rows())?;
    Some(made)
}

// For how many rounds no fewer heads were made than in the round before.
fn steady_for(steady: usize, before: usize, made: usize) -> usize {
    if made < before {
        return 0;
    }
    wrapping_add_usize(steady, 1)
}

// Whether rounds bring too little: they go on making as many heads as before, and these are few beside the many rows that are no heads.
// Many more would follow. It only tells when rows are to be named, and nothing is believed of it.
fn weary(taken: usize, turns: usize, steady: usize, made: usize, heads: usize, n: usize) -> bool {
    if taken >= turns {
        return true;
    }
    if steady < 2 {
        return false;
    }
    if heads >= n {
        return false;
    }
    let rest = n - heads;
    if rest < n / 4 {
        return false;
    }
    made <= rest / 16
}

// At most so many rounds over classes of so many heads, and fewer where they bring too little.
// Asks: classes ready for a round.
pub fn some_rounds(
    view: &View,
    cls: &mut [u16],
    new: &mut [u16],
    links: &mut [u16],
    turns: usize,
    heads: usize,
) -> Option<usize>
    requires { Ready (source_of view.now) view.now.table.now cls.old new.old links.old }
    ensures { RoundsSay (source_of view.now) view.now.table.now cls.old
        cls.new new.new links.new result }
{
    // A copy of its own: what is written through lent memory cannot change it, so that it stays in registers.
    let view = *view;
    let n = view.rows();
    let mut before = n;
    let mut known = heads;
    let mut steady = 0;
    let mut taken = 0;
    // Ended by what the rounds bring, and by no count.
    loop {
        let made = one_round(&view, cls, new, links)?;
        known = wrapping_add_usize(known, made);
        steady = steady_for(steady, before, made);
        taken = wrapping_add_usize(taken, 1);
        if weary(taken, turns, steady, made, known, n) {
            return Some(made);
        }
        before = made;
    }
}
