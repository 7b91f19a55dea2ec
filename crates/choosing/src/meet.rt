// Loops that no marked row cuts. A walk over the rows without a mark flags a class on each loop that it closes, naming nothing: a mark is
// 0 before a row is met, 2 and four times j while the walk is at its input j, and 3 after. A row's link is the way back.
ghost use Rattle.std.specs.Prelude.{◌<◌, length};
ghost use Rattle.rows.specs.Joined.{source_of};
ghost use Rattle.rows.specs.View.{view_rows, BothInView, InView};
ghost use Rattle.choosing.specs.Marked.{Choosing};

use crate::mark::flag_at;
use rows::viewing::View;
use rows::{entry, put_entry};
use visits::walk::{MOST_STEPS, OVER, down, enter, input_or_over};

// So many rows of a loop are looked at.
const MOST_LOOKS: usize = 16;

// A row with one input has nothing but the loop behind it.
fn leads_on(view: &View, u: usize) -> bool
    requires { InView (source_of view.now) view.now.table.now u }
{
    let row = view.read(u);
    row.count == 1
}

// A row of the loop from x to row u that has one input, or x.
fn cut_of(view: &View, cls: &[u16], marks: &[u16], links: &[u16], u: usize, x: usize) -> usize
    requires choosing { Choosing (source_of view.now) view.now.table.now cls.now marks.now links.now }
    requires both_in_view { BothInView (source_of view.now) view.now.table.now u x }
    ensures { result < view_rows (source_of view.now) view.now.table.now }
{
    let n = view.rows();
    let mut w = u;
    for looks in 0usize..MOST_LOOKS {
        if w >= n {
            return x;
        }
        if leads_on(view, w) {
            return w;
        }
        if w == x {
            return x;
        }
        w = entry(links, w);
    }
    x
}

// The loop that closes where row u leads to x, if x is on the way, is cut at a class.
fn meet_row(view: &View, cls: &[u16], marks: &[u16], links: &mut [u16], u: usize, x: usize)
    requires choosing { Choosing (source_of view.now) view.now.table.now cls.now marks.now links.old }
    requires both_in_view { BothInView (source_of view.now) view.now.table.now u x }
    ensures { Choosing (source_of view.now) view.now.table.now cls.now
        marks.now links.new }
{
    if entry(marks, x) % 4 != 2 {
        return;
    }
    let w = cut_of(view, cls, marks, links, u, x);
    put_entry(links, flag_at(cls, view.rows(), w), 1);
}

fn leave(marks: &mut [u16], links: &[u16], u: usize) -> usize
    requires { (u < length marks.old) × (u < length links.now) }
{
    put_entry(marks, u, 3);
    entry(links, u)
}

// On from row u to its input x, or not on if that was met; the row has another mark then.
fn go_on(
    view: &View,
    cls: &[u16],
    marks: &mut [u16],
    links: &mut [u16],
    u: usize,
    mark: usize,
    x: usize,
) -> usize
    requires choosing { Choosing (source_of view.now) view.now.table.now cls.now marks.old links.old }
    requires both_in_view { BothInView (source_of view.now) view.now.table.now u x }
    requires mark_bound { mark < 65536 }
    ensures { Choosing (source_of view.now) view.now.table.now cls.now
        marks.new links.new }
{
    meet_row(view, cls, marks, links, u, x);
    down(marks, links, u, mark, x)
}

// From row u, if it is on the way.
fn step(view: &View, cls: &[u16], marks: &mut [u16], links: &mut [u16], u: usize) -> usize
    requires choosing { Choosing (source_of view.now) view.now.table.now cls.now marks.old links.old }
    requires u_bound { u < view_rows (source_of view.now) view.now.table.now }
    ensures { Choosing (source_of view.now) view.now.table.now cls.now
        marks.new links.new }
{
    let mark = entry(marks, u);
    if mark % 4 != 2 {
        return OVER;
    }
    let x = input_or_over(view, u, mark / 4);
    if x >= OVER {
        return leave(marks, links, u);
    }
    go_on(view, cls, marks, links, u, mark + 4, x)
}

// At most so many steps, until there is no way back.
fn follow(view: &View, cls: &[u16], marks: &mut [u16], links: &mut [u16], root: usize)
    requires { Choosing (source_of view.now) view.now.table.now cls.now marks.old links.old }
    ensures { Choosing (source_of view.now) view.now.table.now cls.now
        marks.new links.new }
{
    let n = view.rows();
    let mut u = root;
    for taken in 0usize..MOST_STEPS {
        if u >= n {
            return;
        }
        u = step(view, cls, marks, links, u);
    }
}

// All rows below a row, if it was not met.
fn meet_below(view: &View, cls: &[u16], marks: &mut [u16], links: &mut [u16], root: usize)
    requires choosing { Choosing (source_of view.now) view.now.table.now cls.now marks.old links.old }
    requires root_bound { root < view_rows (source_of view.now) view.now.table.now }
    ensures { Choosing (source_of view.now) view.now.table.now cls.now
        marks.new links.new }
{
    if entry(marks, root) != 0 {
        return;
    }
    enter(marks, links, root, OVER);
    follow(view, cls, marks, links, root);
}

// Asks: rows with their classes, a mark for each, and links.
pub fn meet(view: &View, cls: &[u16], marks: &mut [u16], links: &mut [u16])
    requires { Choosing (source_of view.now) view.now.table.now cls.now marks.old links.old }
    ensures { Choosing (source_of view.now) view.now.table.now cls.now
        marks.new links.new }
{
    let n = view.rows();
    for u in 0..n {
        meet_below(view, cls, marks, links, u);
    }
}
