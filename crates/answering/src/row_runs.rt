// The yes-or-no questions on rows of stores: compare, and part of.
ghost use Rattle.std.specs.Prelude.{◌≡◌, length};
ghost use Rattle.requests.specs.Runs.{words_in, CompareThere, PartThere};
ghost use Rattle.answering.specs.Answered.{CompareSays, PartSays};

use register::{Answer, compare, part_of};
use requests::asked::{CompareAsked, PartAsked};
use requests::run::words_in;

// A row of one store compared with a row of another.
// Asks: the arguments of a comparison that are there, and as many words lent as their runs have.
pub fn compare_runs(
    ask: &[u8],
    asked: CompareAsked,
    words: &mut [u32],
    others: &mut [u32],
) -> Answer
    requires { CompareThere ask.now asked ×
        (length words.old ≡ asked.store.count) ×
        (length others.old ≡ asked.second.count) }
    ensures compare_says { CompareSays ask.now asked result }
    ensures words_after { (words.new ≡ words_in ask.now asked.store) ×
        (others.new ≡ words_in ask.now asked.second) }
{
    let store = asked.store;
    let row = asked.row;
    let second = asked.second;
    let other = asked.other;
    words_in(ask, store, words);
    words_in(ask, second, others);
    compare(words, row.count as u32, others, other.count as u32)
}

// Whether a path leads from the whole to the part. The request has the whole first.
// Asks: the arguments of such a request that are there, and as many words lent as their run has.
pub fn part_run(ask: &[u8], asked: PartAsked, words: &mut [u32]) -> Answer
    requires { PartThere ask.now asked × (length words.old ≡ asked.store.count) }
    ensures part_says { PartSays ask.now asked result }
    ensures words_after { words.new ≡ words_in ask.now asked.store }
{
    let store = asked.store;
    let whole = asked.whole;
    let part = asked.part;
    words_in(ask, store, words);
    part_of(words, part.count as u32, whole.count as u32)
}
