// The whole write of a done insert. The rows' numbers are held only here: while rows are sorted there are none.
ghost use Rattle.std.specs.Prelude.{◌≡◌, ◌+◌, length};
ghost use Rattle.rules.specs.Lists.{firsts};
ghost use Rattle.rules.specs.Writes.{over_front};
ghost use Rattle.rows.specs.Joined.{source, joined};
ghost use Rattle.rounds.specs.Classes.{class_of};
ghost use Rattle.writing.specs.After.{store_written, answer_of};
ghost use Rattle.writing.specs.Asked.{ToWrite};

use crate::answers::put_answers;
use crate::numbers::number_rows;
use crate::puts::write_store;
use rows::JOINED_ROWS;

// The numbers, with them the new rows and the count, and the answers.
fn write_with(
    store: &mut [u32],
    most: usize,
    stored: usize,
    bytes: &[u8],
    table: &[u16],
    cls: &[u16],
    answers: &mut [u32],
    numbers: &mut [u16],
)
    requires { ToWrite most store.old bytes.now stored table.now cls.now answers.old × (length numbers.old ≡ 2048) }
    ensures store_after { store.new ≡ store_written most (joined (source most store.old stored bytes.now))
        (class_of cls.now) stored (stored + length table.now) store.old }
    ensures answers_after { answers.new ≡ over_front (firsts (answer_of (class_of cls.now) stored) (length table.now))
        answers.old }
{
    let count = number_rows(cls, stored + table.len(), numbers);
    write_store(store, most, stored, bytes, table, cls, numbers, count);
    put_answers(answers, stored, table.len(), cls, numbers);
}

// Asks: a view of a store with words, its rows sorted, room for every tree of it, and an answer for each sheet row.
pub fn write_all(
    store: &mut [u32],
    most: usize,
    stored: usize,
    bytes: &[u8],
    table: &[u16],
    cls: &[u16],
    answers: &mut [u32],
)
    requires { ToWrite most store.old bytes.now stored table.now cls.now answers.old }
    ensures store_after { store.new ≡ store_written most (joined (source most store.old stored bytes.now))
        (class_of cls.now) stored (stored + length table.now) store.old }
    ensures answers_after { answers.new ≡ over_front (firsts (answer_of (class_of cls.now) stored) (length table.now))
        answers.old }
{
    let mut numbers = [0u16; JOINED_ROWS];
    write_with(
        store,
        most,
        stored,
        bytes,
        table,
        cls,
        answers,
        &mut numbers,
    )
}
