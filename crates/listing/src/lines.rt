// The program's lines, put into lent bytes.
ghost use Rattle.std.specs.Prelude.{◌≡◌, [], ◌∷◌, ◌+◌, ◌≤◌, length};
ghost use Rattle.rules.specs.Writes.{Wrote};
ghost use Rattle.listing.specs.Lines.{line_of, head_of, rest_line};

use text::{put_byte, put_number, put_numbers, put_text};

// The number given back, and then the rows added.
fn result(number: u32, added: u32) -> [u32; 2]
    ensures { result ≡ number ∷ added ∷ [] }
{
    [number, added]
}

// What every sheet's line has: its place, the number given back and the rows added.
// Asks: there is room for it.
fn put_head(out: &mut [u8], at: usize, place: usize, number: u32, added: u32) -> usize
    requires { at + length (head_of place number added) ≤ length out.old }
    ensures { Wrote out.old at (head_of place number added) out.new result }
{
    let past = put_number(out, at, place as u64);
    let told = result(number, added);
    put_numbers(out, past, &told)
}

// A sheet's line: its place, the number given back, the rows added, and the rows' numbers.
// Asks: there is room for it.
pub fn put_line(
    out: &mut [u8],
    at: usize,
    place: usize,
    number: u32,
    added: u32,
    rows: &[u32],
) -> usize
    requires { at + length (line_of place number added rows.now) ≤ length out.old }
    ensures { Wrote out.old at (line_of place number added rows.now) out.new result }
{
    let a = put_head(out, at, place, number, added);
    let c = put_numbers(out, a, rows);
    put_byte(out, c, b'\n')
}

// The last line, where bytes are left over.
// Asks: there is room for it.
pub fn put_rest(out: &mut [u8], at: usize, rest: usize) -> usize
    requires { at + length (rest_line rest) ≤ length out.old }
    ensures { Wrote out.old at (rest_line rest) out.new result }
{
    if rest == 0 {
        return at;
    }
    let a = put_text(out, at, b"rest ");
    let b = put_number(out, a, rest as u64);
    put_byte(out, b, b'\n')
}
