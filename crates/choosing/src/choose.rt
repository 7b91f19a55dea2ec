// Which classes are taken whole before rows are named. The choice is free: it only has to go by class.
ghost use Rattle.rows.specs.Joined.{source_of};
ghost use Rattle.rows.specs.View.{view_rows};
ghost use Rattle.choosing.specs.Marked.{ByClass, Choosing};

use crate::mark::{by_class, mark_small};
use crate::meet::meet;
use rows::viewing::View;

// Small classes, and, where loops are looked for, a class on each loop that these do not cut.
// Asks: rows with their classes, a mark for each, and links.
pub fn choose(
    view: &View,
    cls: &[u16],
    marks: &mut [u16],
    links: &mut [u16],
    pairs: bool,
    loops: bool,
)
    requires { Choosing (source_of view.now) view.now.table.now cls.now marks.old links.old }
    ensures { ByClass (view_rows (source_of view.now) view.now.table.now) cls.now
        marks.new }
{
    let n = view.rows();
    mark_small(cls, marks, links, n, pairs);
    if !loops {
        return;
    }
    meet(view, cls, marks, links);
    by_class(cls, marks, links, n);
}
