// A store looked over: every operation that takes one begins here.
ghost use Rattle.std.specs.Prelude.{◌≡◌, false};
ghost use Rattle.rules.specs.Refusals.{First};
ghost use Rattle.checking.specs.Check.{check_refusals};
ghost use Rattle.checking.specs.Checked.{CheckedSays};

use crate::distinct::distinct;
use store::row::ROOM;
use store::shape::{Flaw, shape_of};

// The number of the table, and yes or no.
// It stays a struct: AnswerSays and the theorems speak of both parts at once, and C gets both.
#[derive(Clone, Copy)]
pub struct Answer {
    pub number: u32,
    pub yes: bool,
}

impl Answer {
    // The answer beside a refusal is no.
    pub fn refused(number: u32) -> Answer
        ensures { result ≡ record { number = number; yes = false } }
    {
        Answer { number, yes: false }
    }
}

// The rows in use of a sound store.
pub fn look_over(store: &[u32]) -> Result<usize, Flaw>
    ensures { CheckedSays store.now result }
{
    let rows = shape_of(store, ROOM)?;
    if distinct(store, rows) {
        Ok(rows)
    } else {
        Err(Flaw::Broken)
    }
}

// 1 with no words, 2 when the store is not sound, else 0.
pub fn check(store: &[u32]) -> u32
    ensures { First (check_refusals store.now) result }
{
    match look_over(store) {
        Err(flaw) => flaw.number(),
        Ok(_) => 0,
    }
}
