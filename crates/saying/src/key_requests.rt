// The requests on keys, writing one and telling whether bytes are one: their lines.
ghost use Rattle.std.specs.Prelude.{◌≡◌, length};
ghost use Rattle.requests.specs.Requests.{Asked};
ghost use Rattle.requests.specs.Runs.{KeyThere};

use crate::lines::{digit, put_key, put_line};
use crate::memory::Memory;
use answering::key_runs::{is_key_run, key_runs};
use printing::Printer;
use requests::asked::KeyAsked;
use requests::whole::{key_test_whole, key_whole};
use standard::Failed;

// Asks: the arguments of a key that are there, and as many words and bytes lent as their runs have.
fn key_line(
    ask: &[u8],
    asked: KeyAsked,
    words: &mut [u32],
    buffer: &mut [u8],
    printer: &mut Printer,
) -> Result<(), Failed>
    requires { KeyThere ask.now asked ×
        (length words.old ≡ asked.store.count) ×
        (length buffer.old ≡ asked.buffer.count) }
{
    let written = key_runs(ask, asked, words, buffer);
    put_key(printer, written, buffer)
}

// Asks: a whole request for a key.
pub fn say_key(ask: &[u8], memory: &mut Memory, printer: &mut Printer) -> Result<(), Failed>
    requires { Asked ask.now 3 }
{
    let asked = key_whole(ask);
    let n = asked.store.count;
    let k = asked.buffer.count;
    key_line(
        ask,
        asked,
        &mut memory.words[..n],
        &mut memory.buffer[..k],
        printer,
    )
}

// Asks: a whole request whether bytes are a key.
pub fn say_is_key(ask: &[u8], printer: &mut Printer) -> Result<(), Failed>
    requires { Asked ask.now 4 }
{
    let yes = is_key_run(ask, key_test_whole(ask));
    put_line(printer, &[4, digit(yes)])
}
