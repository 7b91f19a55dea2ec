// The yes-or-no questions on rows of stores, compare and part of: their lines.
ghost use Rattle.requests.specs.Requests.{Asked};

use crate::lines::{digit, put_line};
use crate::memory::Memory;
use answering::row_runs::{compare_runs, part_run};
use printing::Printer;
use requests::whole::{compare_whole, part_whole};
use standard::Failed;

// Asks: a whole request to compare.
pub fn say_compare(ask: &[u8], memory: &mut Memory, printer: &mut Printer) -> Result<(), Failed>
    requires { Asked ask.now 5 }
{
    let asked = compare_whole(ask);
    let n = asked.store.count;
    let k = asked.second.count;
    let r = compare_runs(ask, asked, &mut memory.words[..n], &mut memory.others[..k]);
    put_line(printer, &[5, r.number, digit(r.yes)])
}

// Asks: a whole request for a part.
pub fn say_part(ask: &[u8], memory: &mut Memory, printer: &mut Printer) -> Result<(), Failed>
    requires { Asked ask.now 6 }
{
    let asked = part_whole(ask);
    let n = asked.store.count;
    let r = part_run(ask, asked, &mut memory.words[..n]);
    put_line(printer, &[6, r.number, digit(r.yes)])
}
