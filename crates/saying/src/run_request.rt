// The request to run recorded counts through a chain: its line.
ghost use Rattle.std.specs.Prelude.{◌≡◌, length};
ghost use Rattle.requests.specs.Requests.{Asked};
ghost use Rattle.requests.specs.Runs.{RunThere};

use crate::lines::put_run;
use crate::memory::Memory;
use answering::run_runs::run_runs;
use printing::Printer;
use requests::asked::RunAsked;
use requests::whole::run_whole;
use standard::Failed;

// Asks: the arguments of such a request that are there, and as many words and numbers lent as their runs have.
fn run_line(
    ask: &[u8],
    asked: RunAsked,
    words: &mut [u32],
    values: &mut [i32],
    output: &mut [i32],
    printer: &mut Printer,
) -> Result<(), Failed>
    requires { RunThere ask.now asked ×
        (length words.old ≡ asked.store.count) ×
        (length values.old ≡ asked.values.count) ×
        (length output.old ≡ asked.output.count) }
{
    let number = run_runs(ask, asked, words, values, output);
    put_run(printer, number, output)
}

// Asks: a whole request for a run.
pub fn say_run(ask: &[u8], memory: &mut Memory, printer: &mut Printer) -> Result<(), Failed>
    requires { Asked ask.now 12 }
{
    let asked = run_whole(ask);
    let n = asked.store.count;
    let k = asked.values.count;
    let m = asked.output.count;
    run_line(
        ask,
        asked,
        &mut memory.words[..n],
        &mut memory.values[..k],
        &mut memory.output[..m],
        printer,
    )
}
