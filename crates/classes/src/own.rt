// Whether rows are each their own class.
ghost use Rattle.std.specs.Prelude.{◌≤◌, length};
ghost use Rattle.rules.specs.Answers.{Says};
ghost use Rattle.classes.specs.Own.{OwnClasses};

use rows::entry;

// Whether each of the first rows is its own class.
// Asks: there is a class for each of them.
pub fn all_own(cls: &[u16], rows: usize) -> bool
    requires { rows ≤ length cls.now }
    ensures { Says (OwnClasses rows cls.now) result }
{
    for u in 0..rows {
        if entry(cls, u) != u {
            return false;
        }
    }
    true
}
