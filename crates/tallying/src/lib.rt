// Rows that go, wires that do not, and unused input words that are not zero: counted while the words are still as they were.
#![tactic(auto)]

ghost use Rattle.std.specs.Prelude.{ℕ, ◌≡◌, ◌<◌, ◌≤◌, length};
ghost use Rattle.rules.specs.Lists.{widest};
ghost use Rattle.store.specs.Rows.{RowThere};
ghost use Rattle.mends.specs.Counts.{tally, total};
ghost use Rattle.tallying.specs.Counted.{one_if, marked_at, wire_left, word_set, cleared_left, Summed, RowLooked, TallyAsks, Counted};

use spoiling::{GONE, entry_of, wire_at};
use store::row::{count_of, input_of};

#[derive(Clone, Copy)]
pub struct Counts {
    pub dropped: u32,
    pub wires: u32,
    pub cleared: u32,
}

// What `each` gives for the numbers below n, added.
// Asks: few numbers, and nothing above a row's inputs for any of them.
fn sum_of<F: Fn(usize) -> u32>(n: usize, each: F) -> u32
    requires few { n ≤ 1024 }
    requires callable { (u : ℕ) → u < n → F.pre each u }
    requires low { (u x : ℕ) → u < n → F.post each u x → x ≤ widest }
    ensures { Summed n (F.post each) result }
{
    let mut sum = 0;
    for u in 0..n {
        sum += each(u);
    }
    sum
}

// One for a row that is marked.
fn one_marked(list: &[u32], u: usize) -> u32
    requires { u < length list.now }
    ensures { result ≡ one_if (marked_at list.now u) }
{
    if entry_of(list, u) == GONE {
        return 1;
    }
    0
}

// One for a wire that is not marked.
fn one_wire(store: &[u32], most: usize, list: &[u32], u: usize) -> u32
    requires { RowLooked most store.now list.now u }
    ensures { result ≡ one_if (wire_left most store.now list.now u) }
{
    if entry_of(list, u) == GONE {
        return 0;
    }
    if wire_at(store, most, u) {
        return 1;
    }
    0
}

// One for an input word that is unused and not zero.
fn one_word(store: &[u32], most: usize, u: usize, j: usize) -> u32
    requires { RowThere most store.now u × (j < most) }
    ensures { result ≡ one_if (word_set most store.now u j) }
{
    if j < count_of(store, most, u) as usize {
        return 0;
    }
    if input_of(store, most, u, j) == 0 {
        return 0;
    }
    1
}

// Such words of row u.
fn words_of(store: &[u32], most: usize, u: usize) -> u32
    requires { RowThere most store.now u }
    ensures { result ≡ tally (word_set most store.now u) most }
{
    sum_of(most, |j| one_word(store, most, u, j))
}

// Such words of row u, if it is not marked.
fn words_left(store: &[u32], most: usize, list: &[u32], u: usize) -> u32
    requires { RowLooked most store.now list.now u }
    ensures { result ≡ cleared_left most store.now list.now u }
{
    if entry_of(list, u) == GONE {
        return 0;
    }
    words_of(store, most, u)
}

fn count_dropped(store: &[u32], most: usize, list: &[u32], n: usize) -> u32
    requires { TallyAsks most n store.now list.now }
    ensures { result ≡ tally (marked_at list.now) n }
{
    sum_of(n, |u| one_marked(list, u))
}

fn count_wires(store: &[u32], most: usize, list: &[u32], n: usize) -> u32
    requires { TallyAsks most n store.now list.now }
    ensures { result ≡ tally (wire_left most store.now list.now) n }
{
    sum_of(n, |u| one_wire(store, most, list, u))
}

fn count_words(store: &[u32], most: usize, list: &[u32], n: usize) -> u32
    requires { TallyAsks most n store.now list.now }
    ensures { result ≡ total (cleared_left most store.now list.now) n }
{
    sum_of(n, |u| words_left(store, most, list, u))
}

// The three counts.
// Asks: the rows are there, with an entry each.
pub fn count_all(store: &[u32], most: usize, list: &[u32], n: usize) -> Counts
    requires { TallyAsks most n store.now list.now }
    ensures { Counted most n store.now list.now result.dropped result.wires result.cleared }
{
    Counts {
        dropped: count_dropped(store, most, list, n),
        wires: count_wires(store, most, list, n),
        cleared: count_words(store, most, list, n),
    }
}
