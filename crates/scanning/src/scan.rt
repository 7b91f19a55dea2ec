// All rows looked at once, each named if it can be.
ghost use Rattle.std.specs.Prelude.{◌<◌};
ghost use Rattle.rows.specs.Joined.{source_of};
ghost use Rattle.rows.specs.View.{view_rows};
ghost use Rattle.naming.specs.InNaming.{InNaming};
ghost use Rattle.scanning.specs.Scanned.{ScanRow, ScanMore, ScanTo};

use naming::naming::{name, ready};
use rows::viewing::View;
use rows::{entry, put_entry};

// Whether row u was named just now. A row that is left has mark 0.
fn scan_row(view: &View, cls: &mut [u16], marks: &mut [u16], links: &mut [u16], u: usize) -> bool
    requires in_naming { InNaming (source_of view.now) view.now.table.now cls.old marks.old links.old }
    requires u_bound { u < view_rows (source_of view.now) view.now.table.now }
    ensures { ScanRow (source_of view.now) view.now.table.now cls.old
        marks.old links.old cls.new marks.new links.new u result }
{
    if entry(marks, u) == 1 {
        return false;
    }
    put_entry(marks, u, 0);
    if ready(view, marks, u) {
        return name(view, cls, marks, links, u);
    }
    false
}

fn scan_more(
    view: &View,
    cls: &mut [u16],
    marks: &mut [u16],
    links: &mut [u16],
    u: usize,
    some: bool,
) -> bool
    requires in_naming { InNaming (source_of view.now) view.now.table.now cls.old marks.old links.old }
    requires u_bound { u < view_rows (source_of view.now) view.now.table.now }
    ensures { ScanMore (source_of view.now) view.now.table.now cls.old
        marks.old links.old cls.new marks.new links.new u some result }
{
    if scan_row(view, cls, marks, links, u) {
        return true;
    }
    some
}

// Whether a row was named. Where none was, each row is named, or has an input that is not, or found no room.
// Asks: a naming.
pub fn scan(view: &View, cls: &mut [u16], marks: &mut [u16], links: &mut [u16]) -> bool
    requires { InNaming (source_of view.now) view.now.table.now cls.old marks.old links.old }
    ensures { ScanTo (source_of view.now) view.now.table.now cls.old
        marks.old links.old cls.new marks.new links.new
        (view_rows (source_of view.now) view.now.table.now) result }
{
    let n = view.rows();
    let mut some = false;
    for u in 0..n {
        some = scan_more(view, cls, marks, links, u, some);
    }
    some
}
