// The request to convert an old sheet: its line.
ghost use Rattle.std.specs.Prelude.{◌≡◌, length};
ghost use Rattle.requests.specs.Requests.{Asked};
ghost use Rattle.requests.specs.Runs.{ConvertThere};

use crate::lines::put_convert;
use crate::memory::Memory;
use answering::convert_runs::convert_runs;
use printing::Printer;
use requests::asked::ConvertAsked;
use requests::whole::convert_whole;
use standard::Failed;

// Asks: the arguments of such a request that are there, and as many words and bytes lent as their runs have.
fn convert_line(
    ask: &[u8],
    asked: ConvertAsked,
    words: &mut [u32],
    buffer: &mut [u8],
    printer: &mut Printer,
) -> Result<(), Failed>
    requires { ConvertThere ask.now asked ×
        (length words.old ≡ asked.store.count) ×
        (length buffer.old ≡ asked.buffer.count) }
{
    let done = convert_runs(ask, asked, words, buffer);
    put_convert(printer, done, buffer)
}

// Asks: a whole request to convert.
pub fn say_convert(ask: &[u8], memory: &mut Memory, printer: &mut Printer) -> Result<(), Failed>
    requires { Asked ask.now 13 }
{
    let asked = convert_whole(ask);
    let n = asked.store.count;
    let k = asked.buffer.count;
    convert_line(
        ask,
        asked,
        &mut memory.words[..n],
        &mut memory.buffer[..k],
        printer,
    )
}
