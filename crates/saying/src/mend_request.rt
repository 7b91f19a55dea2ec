// The request to mend a store: its line.
ghost use Rattle.std.specs.Prelude.{◌≡◌, length};
ghost use Rattle.requests.specs.Requests.{Asked};
ghost use Rattle.requests.specs.Runs.{MendThere};

use crate::lines::put_mend;
use crate::memory::Memory;
use answering::mend_runs::mend_runs;
use printing::Printer;
use requests::asked::MendAsked;
use requests::whole::mend_whole;
use standard::Failed;

// Asks: the arguments of such a request that are there, and as many words lent as their runs have.
fn mend_line(
    ask: &[u8],
    asked: MendAsked,
    words: &mut [u32],
    numbers: &mut [u32],
    printer: &mut Printer,
) -> Result<(), Failed>
    requires { MendThere ask.now asked ×
        (length words.old ≡ asked.store.count) ×
        (length numbers.old ≡ asked.list.count) }
{
    let done = mend_runs(ask, asked, words, numbers);
    put_mend(printer, done, words, numbers)
}

// Asks: a whole request to mend.
pub fn say_mend(ask: &[u8], memory: &mut Memory, printer: &mut Printer) -> Result<(), Failed>
    requires { Asked ask.now 11 }
{
    let asked = mend_whole(ask);
    let n = asked.store.count;
    let k = asked.list.count;
    mend_line(
        ask,
        asked,
        &mut memory.words[..n],
        &mut memory.others[..k],
        printer,
    )
}
