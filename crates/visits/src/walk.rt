// Rows visited inputs first, so that a deep chain is named in one walk. Nothing is believed of the walk: it only names rows that can be
// named. A mark: 0 bare, 1 named, 2 and four times j on the way at input j, 3 left. A row's link is the way back.
ghost use Rattle.std.specs.Prelude.{◌≡◌, ◌<◌, length, set};
ghost use Rattle.rows.specs.Joined.{source_of};
ghost use Rattle.rows.specs.View.{view_rows, InView};
ghost use Rattle.naming.specs.InNaming.{InNaming, Went};
ghost use Rattle.visits.specs.Walked.{Bare, DownSays, InputOr};

use naming::naming::{name, ready};
use rows::viewing::View;
use rows::{entry, put_entry};

// No row: the way back of the row at which a walk begins. It stands among the links, which are memory of 16-bit entries, so it is a number.
pub const OVER: usize = 2048;

// A walk takes at most nine steps a row; the number is there for the walk's end alone.
pub const MOST_STEPS: usize = 32768;

// Row x is on the way, and leads back to a row.
// Asks: a mark and a link for the row, and a number of 16 bits.
pub fn enter(marks: &mut [u16], links: &mut [u16], x: usize, back: usize)
    requires { (x < length marks.old) × (x < length links.old) × (back < 65536) }
    ensures { (marks.new ≡ set marks.old x 2) × (links.new ≡ set links.old x back) }
{
    put_entry(marks, x, 2);
    put_entry(links, x, back);
}

// On to an input that was not visited, or not on.
// Asks: marks and links for both rows, and numbers of 16 bits.
pub fn down(marks: &mut [u16], links: &mut [u16], u: usize, mark: usize, x: usize) -> usize
    requires { (u < length marks.old) × (x < length marks.old) × (x < length links.old) × (u < 65536) × (mark < 65536) }
    ensures { DownSays marks.old links.old marks.new links.new u mark x }
{
    put_entry(marks, u, mark);
    if entry(marks, x) != 0 {
        return u;
    }
    enter(marks, links, x, u);
    x
}

// Row u named if it can be, or left.
fn visit(view: &View, cls: &mut [u16], marks: &mut [u16], links: &mut [u16], u: usize)
    requires in_naming { InNaming (source_of view.now) view.now.table.now cls.old marks.old links.old }
    requires bare { Bare (source_of view.now) view.now.table.now marks.old u }
    ensures { Went (source_of view.now) view.now.table.now cls.old marks.old
        cls.new marks.new links.new }
{
    put_entry(marks, u, 3);
    if ready(view, marks, u) {
        name(view, cls, marks, links, u);
        return;
    }
}

fn up(view: &View, cls: &mut [u16], marks: &mut [u16], links: &mut [u16], u: usize) -> usize
    requires in_naming { InNaming (source_of view.now) view.now.table.now cls.old marks.old links.old }
    requires bare { Bare (source_of view.now) view.now.table.now marks.old u }
    ensures { Went (source_of view.now) view.now.table.now cls.old marks.old
        cls.new marks.new links.new }
{
    let back = entry(links, u);
    visit(view, cls, marks, links, u);
    back
}

// Input j of row u, or no row.
// Asks: a view, and a row of it.
pub fn input_or_over(view: &View, u: usize, j: usize) -> usize
    requires { InView (source_of view.now) view.now.table.now u }
    ensures { InputOr (source_of view.now) view.now.table.now j result }
{
    let row = view.read(u);
    let inputs = row.inputs;
    if j < row.count as usize {
        return inputs[j] as usize;
    }
    OVER
}

// From row u, if it is on the way.
fn step(view: &View, cls: &mut [u16], marks: &mut [u16], links: &mut [u16], u: usize) -> usize
    requires in_naming { InNaming (source_of view.now) view.now.table.now cls.old marks.old links.old }
    requires u_bound { u < view_rows (source_of view.now) view.now.table.now }
    ensures { Went (source_of view.now) view.now.table.now cls.old marks.old
        cls.new marks.new links.new }
{
    let mark = entry(marks, u);
    if mark % 4 != 2 {
        return OVER;
    }
    let x = input_or_over(view, u, mark / 4);
    if x >= OVER {
        return up(view, cls, marks, links, u);
    }
    down(marks, links, u, mark + 4, x)
}

// At most so many steps, until there is no way back.
fn follow(view: &View, cls: &mut [u16], marks: &mut [u16], links: &mut [u16], root: usize)
    requires { InNaming (source_of view.now) view.now.table.now cls.old marks.old links.old }
    ensures { Went (source_of view.now) view.now.table.now cls.old marks.old
        cls.new marks.new links.new }
{
    let n = view.rows();
    let mut u = root;
    for taken in 0usize..MOST_STEPS {
        if u >= n {
            return;
        }
        u = step(view, cls, marks, links, u);
    }
}

// All rows below a row, if it was not visited.
fn walk(view: &View, cls: &mut [u16], marks: &mut [u16], links: &mut [u16], root: usize)
    requires in_naming { InNaming (source_of view.now) view.now.table.now cls.old marks.old links.old }
    requires root_bound { root < view_rows (source_of view.now) view.now.table.now }
    ensures { Went (source_of view.now) view.now.table.now cls.old marks.old
        cls.new marks.new links.new }
{
    if entry(marks, root) != 0 {
        return;
    }
    enter(marks, links, root, OVER);
    follow(view, cls, marks, links, root);
}

// Asks: a naming.
pub fn walks(view: &View, cls: &mut [u16], marks: &mut [u16], links: &mut [u16])
    requires { InNaming (source_of view.now) view.now.table.now cls.old marks.old links.old }
    ensures { Went (source_of view.now) view.now.table.now cls.old marks.old
        cls.new marks.new links.new }
{
    let n = view.rows();
    for u in 0..n {
        walk(view, cls, marks, links, u);
    }
}
