// After a round: whether a row moved, and the new classes taken over.
ghost use Rattle.std.specs.Prelude.{◌≡◌, ◌≤◌, length};
ghost use Rattle.rules.specs.Lists.{firsts};
ghost use Rattle.rules.specs.Writes.{over_front};
ghost use Rattle.rounds.specs.Classes.{class_of};
ghost use Rattle.refining.specs.Moved.{MovedSays, SettleSays};

use rows::entry;

// The first row with another class, if there is one.
fn differ(cls: &[u16], new: &[u16], n: usize) -> Option<usize>
    requires { (n ≤ length cls.now) × (n ≤ length new.now) }
    ensures { MovedSays n cls.now new.now result }
{
    for u in 0..n {
        if entry(new, u) != entry(cls, u) {
            return Some(u);
        }
    }
    None
}

fn take_over(cls: &mut [u16], new: &[u16], n: usize)
    requires { (n ≤ length cls.old) × (n ≤ length new.now) }
    ensures { cls.new ≡ over_front (firsts (class_of new.now) n) cls.old }
{
    // A loop, since the library's copy calls memmove here, and C is promised that memcpy and memset are enough.
    for u in 0..n {
        cls[u] = new[u];
    }
}

// The new classes taken over where a row moved. It is handed back: it shows that the rounds end.
// Asks: both arrays have a class for each row, here and below. The sorting's own arrays have 2,048.
pub fn settle(cls: &mut [u16], new: &[u16], n: usize) -> Option<usize>
    requires { (n ≤ length cls.old) × (n ≤ length new.now) }
    ensures { SettleSays n cls.old new.now cls.new result }
{
    let u = differ(cls, new, n)?;
    take_over(cls, new, n);
    Some(u)
}
