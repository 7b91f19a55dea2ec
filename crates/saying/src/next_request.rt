// The request for the next sheet of a bundle: its line.
ghost use Rattle.requests.specs.Requests.{Asked};

use crate::lines::put_length;
use answering::bundle_runs::next_run;
use printing::Printer;
use requests::whole::next_whole;
use standard::Failed;

// Asks: a whole request for the next sheet.
pub fn say_next(ask: &[u8], printer: &mut Printer) -> Result<(), Failed>
    requires { Asked ask.now 7 }
{
    let bytes = next_run(ask, next_whole(ask));
    put_length(printer, bytes)
}
