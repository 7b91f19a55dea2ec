// An array of classes, marks or links cleared.
ghost use Rattle.std.specs.Prelude.{◌≡◌, [], ◌≤◌, ◌<◌, length, set};
ghost use Rattle.rules.specs.Lists.{firsts};
ghost use Rattle.rules.specs.Writes.{over_front};
ghost use Rattle.rounds.specs.Classes.{class_of};

// Asks: the array has a class for each row.
pub fn clear(cls: &mut [u16], n: usize)
    requires { n ≤ length cls.old }
    ensures { cls.new ≡ over_front (firsts (class_of []) n) cls.old }
{
    cls[..n].fill(0);
}
