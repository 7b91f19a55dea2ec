// The requests on one store, check, insert and strict insert: their lines.
ghost use Rattle.std.specs.Prelude.{◌≡◌, length};
ghost use Rattle.requests.specs.Requests.{Asked};
ghost use Rattle.requests.specs.Runs.{InsertThere};

use crate::lines::{put_insert, put_line};
use crate::memory::Memory;
use answering::store_runs::{check_run, insert_runs, strict_runs};
use printing::Printer;
use requests::asked::InsertAsked;
use requests::whole::{check_whole, insert_whole, strict_whole};
use standard::Failed;

// Asks: a whole request to check.
pub fn say_check(ask: &[u8], memory: &mut Memory, printer: &mut Printer) -> Result<(), Failed>
    requires { Asked ask.now 1 }
{
    let run = check_whole(ask);
    let n = run.count;
    let number = check_run(ask, run, &mut memory.words[..n]);
    put_line(printer, &[1, number])
}

// Asks: the arguments of an insert that are there, and as many words lent as their runs have.
fn insert_line(
    ask: &[u8],
    asked: InsertAsked,
    words: &mut [u32],
    answers: &mut [u32],
    printer: &mut Printer,
) -> Result<(), Failed>
    requires { InsertThere ask.now asked ×
        (length words.old ≡ asked.store.count) ×
        (length answers.old ≡ asked.list.count) }
{
    let done = insert_runs(ask, asked, words, answers);
    put_insert(printer, 2, done, words, answers)
}

// Asks: a whole request to insert.
pub fn say_insert(ask: &[u8], memory: &mut Memory, printer: &mut Printer) -> Result<(), Failed>
    requires { Asked ask.now 2 }
{
    let asked = insert_whole(ask);
    let n = asked.store.count;
    let k = asked.list.count;
    insert_line(
        ask,
        asked,
        &mut memory.words[..n],
        &mut memory.others[..k],
        printer,
    )
}

// Asks: the arguments of an insert that are there, and as many words lent as their runs have.
fn strict_line(
    ask: &[u8],
    asked: InsertAsked,
    words: &mut [u32],
    answers: &mut [u32],
    printer: &mut Printer,
) -> Result<(), Failed>
    requires { InsertThere ask.now asked ×
        (length words.old ≡ asked.store.count) ×
        (length answers.old ≡ asked.list.count) }
{
    let done = strict_runs(ask, asked, words, answers);
    put_insert(printer, 10, done, words, answers)
}

// Asks: a whole request for a strict insert.
pub fn say_strict(ask: &[u8], memory: &mut Memory, printer: &mut Printer) -> Result<(), Failed>
    requires { Asked ask.now 10 }
{
    let asked = strict_whole(ask);
    let n = asked.store.count;
    let k = asked.list.count;
    strict_line(
        ask,
        asked,
        &mut memory.words[..n],
        &mut memory.others[..k],
        printer,
    )
}
