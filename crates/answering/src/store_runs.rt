// Check, insert and strict insert.
ghost use Rattle.std.specs.Prelude.{◌≡◌, length};
ghost use Rattle.rules.specs.Refusals.{First};
ghost use Rattle.requests.specs.Runs.{words_in, bytes_in, WordsThere, InsertThere};
ghost use Rattle.checking.specs.Check.{check_refusals};
ghost use Rattle.inserting.specs.Insert.{InsertSays};
ghost use Rattle.strict.specs.Strict.{StrictSays};

use register::{Inserted, check, insert, insert_strict};
use requests::argument::Argument;
use requests::asked::InsertAsked;
use requests::run::{bytes_at, words_in};

// The store of a request checked.
// Asks: a word run that is there, and as many words lent as it has.
pub fn check_run(ask: &[u8], run: Argument, words: &mut [u32]) -> u32
    requires { WordsThere ask.now run × (length words.old ≡ run.count) }
    ensures first { First (check_refusals (words_in ask.now run)) result }
    ensures words_after { words.new ≡ words_in ask.now run }
{
    words_in(ask, run, words);
    check(words)
}

// The sheet of a request inserted into its store.
// Asks: the arguments of an insert that are there, and as many words lent as their runs have.
pub fn insert_runs(
    ask: &[u8],
    asked: InsertAsked,
    words: &mut [u32],
    answers: &mut [u32],
) -> Inserted
    requires { InsertThere ask.now asked × (length words.old ≡ asked.store.count) × (length answers.old ≡ asked.list.count) }
    ensures { InsertSays (words_in ask.now asked.store) (bytes_in ask.now asked.sheet)
        (words_in ask.now asked.list) result words.new answers.new }
{
    let store = asked.store;
    let sheet = asked.sheet;
    let list = asked.list;
    words_in(ask, store, words);
    words_in(ask, list, answers);
    insert(words, bytes_at(ask, sheet), answers)
}

// The sheet of a request inserted into its store by the strict insert.
// Asks: the arguments of an insert that are there, and as many words lent as their runs have.
pub fn strict_runs(
    ask: &[u8],
    asked: InsertAsked,
    words: &mut [u32],
    answers: &mut [u32],
) -> Inserted
    requires { InsertThere ask.now asked × (length words.old ≡ asked.store.count) × (length answers.old ≡ asked.list.count) }
    ensures { StrictSays (words_in ask.now asked.store) (bytes_in ask.now asked.sheet)
        (words_in ask.now asked.list) result words.new answers.new }
{
    let store = asked.store;
    let sheet = asked.sheet;
    let run = asked.list;
    words_in(ask, store, words);
    words_in(ask, run, answers);
    insert_strict(words, bytes_at(ask, sheet), answers)
}
