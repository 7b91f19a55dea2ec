// The answers: for each sheet row the number of its tree.
ghost use Rattle.std.specs.Prelude.{◌≡◌, ◌+◌, ◌≤◌, length};
ghost use Rattle.rules.specs.Lists.{firsts};
ghost use Rattle.rules.specs.Writes.{over_front};
ghost use Rattle.rounds.specs.Classes.{class_of};
ghost use Rattle.writing.specs.After.{answer_of};
ghost use Rattle.writing.specs.Asked.{Counted};

use crate::numbers::number_of;

// Answers past the rows stand.
// Asks: the rows of the view have classes and numbers, and there is an answer for each sheet row.
pub fn put_answers(answers: &mut [u32], stored: usize, rows: usize, cls: &[u16], numbers: &[u16])
    requires { Counted (stored + rows) cls.now numbers.now × (rows ≤ length answers.old) }
    ensures { answers.new ≡ over_front (firsts (answer_of (class_of cls.now) stored) rows) answers.old }
{
    for i in 0..rows {
        answers[i] = number_of(cls, numbers, stored + i);
    }
}
