// Between rounds: rows named, and their names lowered to classes.
ghost use Rattle.std.specs.Prelude.{◌≡◌, length};
ghost use Rattle.rows.specs.Joined.{source_of};
ghost use Rattle.naming.specs.InNaming.{InNaming};
ghost use Rattle.hastening.specs.Lowerings.{Emptied, Lowerable, LoweredFrom};
ghost use Rattle.hastening.specs.Chosen.{Chosen, AllNamed, TurnSays};
ghost use Rattle.hastening.specs.Ready.{Underway};

use crate::lower::lower;
use rows::viewing::View;
use scanning::scan::scan;
use signatures::entries::clear;
use visits::walk::walks;

fn empty(links: &mut [u16])
    requires { length links.old ≡ 4096 }
    ensures { Emptied links.new }
{
    clear(links, 4096);
}

// Whether to go on. With this walk a second turn does not come; that is proved nowhere, and costs one look at all rows.
fn turn(view: &View, cls: &mut [u16], marks: &mut [u16], links: &mut [u16]) -> bool
    requires { InNaming (source_of view.now) view.now.table.now cls.old marks.old links.old }
    ensures { TurnSays (source_of view.now) view.now.table.now cls.old
        marks.old cls.new marks.new links.new result }
{
    walks(view, cls, marks, links);
    scan(view, cls, marks, links)
}

// Rows named until none is named any more.
fn name_all(view: &View, cls: &mut [u16], marks: &mut [u16], links: &mut [u16])
    requires { InNaming (source_of view.now) view.now.table.now cls.old marks.old links.old }
    ensures { AllNamed (source_of view.now) view.now.table.now cls.old
        cls.new marks.new links.new }
{
    while turn(view, cls, marks, links) {}
}

fn name_from(view: &View, cls: &mut [u16], marks: &mut [u16], links: &mut [u16])
    requires { Chosen (source_of view.now) view.now.table.now cls.old marks.old links.old }
    ensures { AllNamed (source_of view.now) view.now.table.now cls.old
        cls.new marks.new links.new }
{
    empty(links);
    name_all(view, cls, marks, links);
}

fn lower_all(cls: &mut [u16], marks: &[u16], links: &mut [u16], n: usize)
    requires { Lowerable n cls.old marks.now × (length links.old ≡ 4096) }
    ensures { LoweredFrom n cls.old marks.now cls.new × Emptied links.new }
{
    empty(links);
    lower(cls, marks, links, n);
    empty(links);
}

// Asks: classes that part no rows of one tree, and marks that go by class.
pub fn hasten(view: &View, cls: &mut [u16], marks: &mut [u16], links: &mut [u16])
    requires { Chosen (source_of view.now) view.now.table.now cls.old marks.old links.old }
    ensures { Underway (source_of view.now) view.now.table.now cls.old
        cls.new marks.new links.new }
{
    name_from(view, cls, marks, links);
    lower_all(cls, marks, links, view.rows());
}
