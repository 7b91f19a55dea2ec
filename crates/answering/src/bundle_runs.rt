// The next sheet of a bundle.
ghost use Rattle.std.specs.Prelude.{◌≡◌};
ghost use Rattle.sheet.specs.Bundle.{next_length};
ghost use Rattle.requests.specs.Runs.{bytes_in, BytesThere};

use requests::argument::Argument;
use requests::run::bytes_at;
use sheet::bundle::next_sheet;

// How many bytes the next sheet of a run has.
// Asks: a byte run that is there.
pub fn next_run(ask: &[u8], run: Argument) -> usize
    requires { BytesThere ask.now run }
    ensures { result ≡ next_length (bytes_in ask.now run) }
{
    next_sheet(bytes_at(ask, run)).len()
}
