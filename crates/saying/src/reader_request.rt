// The request for the steps of a reader over a bundle.
ghost use Rattle.requests.specs.Requests.{Asked};

use bundle::{reader_moves, reader_shows};
use printing::Printer;
use requests::run::bytes_at;
use requests::whole::reader_whole;
use standard::Failed;

// A space, how many bytes the part shown at a place has, a colon, and the place after moving.
fn put_step(printer: &mut Printer, shown: usize, moved: usize) -> Result<(), Failed> {
    printer.put(b' ')?;
    printer.number(shown as u64)?;
    printer.put(b':')?;
    printer.number(moved as u64)
}

// Each step of a reader. Of no steps the space stays.
fn put_steps(printer: &mut Printer, bundle: &[u8], at: usize, steps: usize) -> Result<(), Failed> {
    if steps == 0 {
        return printer.put(b' ');
    }
    let mut place = at;
    for _ in 0..steps {
        let shown = reader_shows(bundle, place).len();
        place = reader_moves(bundle, place);
        put_step(printer, shown, place)?;
    }
    Ok(())
}

// Asks: a whole request for a reader.
pub fn say_reader(ask: &[u8], printer: &mut Printer) -> Result<(), Failed>
    requires { Asked ask.now 8 }
{
    let asked = reader_whole(ask);
    printer.put(b'8')?;
    put_steps(
        printer,
        bytes_at(ask, asked.bundle),
        asked.place.count,
        asked.steps.count,
    )?;
    printer.put(b'\n')
}
