// A sheet read.
ghost use Rattle.std.specs.Prelude.{◌≡◌};
ghost use Rattle.sheet.specs.Read.{read_sheet};
ghost use Rattle.requests.specs.Runs.{bytes_in, BytesThere};

use register::{Fault, read_sheet};
use requests::argument::Argument;
use requests::run::bytes_at;

// The sheet of a run read: its rows, or its fault.
// Asks: a byte run that is there.
pub fn read_run(ask: &[u8], run: Argument) -> Result<usize, Fault>
    requires { BytesThere ask.now run }
    ensures { result ≡ read_sheet (bytes_in ask.now run) }
{
    read_sheet(bytes_at(ask, run))
}
