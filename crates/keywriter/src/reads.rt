// The rows of a key, read from the store through the queue: row k of the key is the row at place k of the queue.
ghost use Rattle.std.specs.Prelude.{◌≡◌, ◌≤◌, ◌<◌};
ghost use Rattle.rules.specs.Lists.{widest};
ghost use Rattle.walks.specs.Key.{place_of};
ghost use Rattle.walks.specs.Member.{Member};
ghost use Rattle.keywriter.specs.Asked.{rows_of, MarkedIn, HeldIn, key_in};

use rows::entry;
use store::row::{count_of, input_of, label_of};
use walker::row_at;

// A finished walk in memory: the store's words, with room for so many inputs a row and so many rows in use; the queue of the rows met and
// their marks; and how many the queue has.
#[derive(Clone, Copy)]
pub struct Walked<'a> {
    pub store: &'a [u32],
    pub most: usize,
    pub n: usize,
    pub queue: &'a [u16],
    pub marks: &'a [u16],
    pub filled: usize,
}

// The place of a queued row.
// Asks: a queue with its marks, and a row that is in it. The walk leaves its queue so.
pub fn place_in(walked: &Walked, x: usize) -> usize
    requires { MarkedIn walked.now × Member (rows_of walked.now) x }
    ensures { (result ≡ place_of (rows_of walked.now) x) × (result < walked.now.filled) }
{
    entry(walked.marks, x)
}

// The label of row k of the key.
// Asks: a finished walk over a shaped store, and a place of its queue.
pub fn key_label(walked: &Walked, k: usize) -> usize
    requires { HeldIn walked.now × (k < walked.now.filled) }
    ensures { (result ≡ (key_in walked.now).label k) × (result < 4294967296) }
{
    let row = row_at(walked.queue, walked.marks, walked.n, walked.filled, k);
    label_of(walked.store, walked.most, row) as usize
}

// The input count of row k of the key. It differs from `key_label` in the word it reads, and so in its promise.
// Asks: a finished walk over a shaped store, and a place of its queue.
pub fn key_count(walked: &Walked, k: usize) -> usize
    requires { HeldIn walked.now × (k < walked.now.filled) }
    ensures { (result ≡ (key_in walked.now).count k) × (result ≤ widest) }
{
    let row = row_at(walked.queue, walked.marks, walked.n, walked.filled, k);
    count_of(walked.store, walked.most, row) as usize
}

// Input j of row k of the key: the place of the row that it leads to.
// Asks: a finished walk over a shaped store, a place of its queue, and a used input of the row there.
pub fn key_input(walked: &Walked, k: usize, j: usize) -> usize
    requires { HeldIn walked.now × (k < walked.now.filled) × (j < (key_in walked.now).count k) }
    ensures { (result ≡ (key_in walked.now).input k j) × (result < 65536) }
{
    let row = row_at(walked.queue, walked.marks, walked.n, walked.filled, k);
    let x = input_of(walked.store, walked.most, row, j) as usize;
    place_in(walked, x)
}
