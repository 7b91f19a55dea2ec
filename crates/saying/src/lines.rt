// The lines of the answers. No contract can say what a write shows, so these have none but the printer's own.
ghost use Rattle.std.specs.Prelude.{◌≡◌};
ghost use Rattle.rules.specs.Pick.{pick};

use printing::Printer;
use register::{Converted, Inserted, Mended, Written};
use standard::Failed;

// Numbers with one space between, and a newline.
pub fn put_line(printer: &mut Printer, numbers: &[u32]) -> Result<(), Failed> {
    printer.tell_list(numbers)?;
    printer.put(b'\n')
}

// A slash with its spaces, and a word run. Of an empty run the spaces stay.
fn put_words(printer: &mut Printer, words: &[u32]) -> Result<(), Failed> {
    printer.text(b" / ")?;
    printer.tell_list(words)
}

// The same with a byte run.
fn put_bytes(printer: &mut Printer, bytes: &[u8]) -> Result<(), Failed> {
    printer.text(b" / ")?;
    printer.hex(bytes)
}

// A place or a length, with a space before it.
fn put_place(printer: &mut Printer, place: usize) -> Result<(), Failed> {
    printer.put(b' ')?;
    printer.number(place as u64)
}

// Of the request of a number: the number given back, the rows added and the place, the store and the answer list.
pub fn put_insert(
    printer: &mut Printer,
    request: u32,
    done: Inserted,
    words: &[u32],
    answers: &[u32],
) -> Result<(), Failed> {
    printer.tell_list(&[request, done.number, done.added])?;
    put_place(printer, done.place)?;
    put_words(printer, words)?;
    put_words(printer, answers)?;
    printer.put(b'\n')
}

// The number and the four counts, the store and the list.
pub fn put_mend(
    printer: &mut Printer,
    done: Mended,
    words: &[u32],
    list: &[u32],
) -> Result<(), Failed> {
    printer.tell_list(&[
        11,
        done.number,
        done.dropped,
        done.wires,
        done.merged,
        done.cleared,
    ])?;
    put_words(printer, words)?;
    put_words(printer, list)?;
    printer.put(b'\n')
}

// The number of a run, and its output.
pub fn put_run(printer: &mut Printer, number: u32, output: &[i32]) -> Result<(), Failed> {
    printer.tell_list(&[12, number])?;
    printer.text(b" / ")?;
    printer.tell_list(output)?;
    printer.put(b'\n')
}

// The number of a sheet, and the place.
pub fn put_read(printer: &mut Printer, number: u32, place: usize) -> Result<(), Failed> {
    printer.tell_list(&[9, number])?;
    put_place(printer, place)?;
    printer.put(b'\n')
}

// The number and the bytes written, and the buffer.
pub fn put_key(printer: &mut Printer, written: Written, buffer: &[u8]) -> Result<(), Failed> {
    printer.tell_list(&[3, written.number])?;
    put_place(printer, written.bytes)?;
    put_bytes(printer, buffer)?;
    printer.put(b'\n')
}

// The number, the bytes written and the place, and the buffer.
pub fn put_convert(printer: &mut Printer, done: Converted, buffer: &[u8]) -> Result<(), Failed> {
    printer.tell_list(&[13, done.number])?;
    put_place(printer, done.bytes)?;
    put_place(printer, done.place)?;
    put_bytes(printer, buffer)?;
    printer.put(b'\n')
}

// A length.
pub fn put_length(printer: &mut Printer, bytes: usize) -> Result<(), Failed> {
    printer.put(b'7')?;
    put_place(printer, bytes)?;
    printer.put(b'\n')
}

// A yes as 1, a no as 0.
pub fn digit(yes: bool) -> u32
    ensures { result ≡ pick yes 1 0 }
{
    if yes { 1 } else { 0 }
}
