// The request to read a sheet: its line.
ghost use Rattle.requests.specs.Requests.{Asked};

use crate::lines::put_read;
use answering::sheet_runs::read_run;
use printing::Printer;
use requests::whole::sheet_whole;
use standard::Failed;

// Asks: a whole request to read a sheet.
pub fn say_read(ask: &[u8], printer: &mut Printer) -> Result<(), Failed>
    requires { Asked ask.now 9 }
{
    match read_run(ask, sheet_whole(ask)) {
        Ok(_) => put_read(printer, 0, 0),
        Err(fault) => put_read(printer, fault.number, fault.place),
    }
}
