// Text put into lent bytes: what stands there afterwards is in the contracts, and nothing is written to a file here. Each writer returns the
// place past what it put.
#![tactic(auto)]

ghost use Rattle.std.specs.Prelude.{◌≡◌, [], ◌∷◌, ◌+◌, ◌≤◌, ◌<◌, length, take};
ghost use Rattle.rules.specs.Writes.{Wrote};
ghost use Rattle.io.specs.Counts.{IsPrefixLen};
ghost use Rattle.text.specs.Decimal.{decimal, spaced};

// Asks: there is room for a byte.
pub fn put_byte(out: &mut [u8], at: usize, b: u8) -> usize
    requires { at < length out.old }
    ensures { Wrote out.old at (b ∷ []) out.new result }
{
    out[at] = b;
    at + 1
}

// Asks: there is room for the text.
pub fn put_text(out: &mut [u8], at: usize, text: &[u8]) -> usize
    requires { at + length text.now ≤ length out.old }
    ensures { Wrote out.old at text.now out.new result }
{
    let mut to = at;
    for b in text {
        to = put_byte(out, to, *b);
    }
    to
}

// The digits of a number at the front of lent bytes, and how many they are.
fn spell(n: u64, digits: &mut [u8; 20]) -> usize
    ensures prefix_len { IsPrefixLen result digits.new }
    ensures digits_after { take result digits.new ≡ decimal n }
{
    io::decimal(n, digits)
}

// Asks: there is room for the digits.
pub fn put_number(out: &mut [u8], at: usize, n: u64) -> usize
    requires { at + length (decimal n) ≤ length out.old }
    ensures { Wrote out.old at (decimal n) out.new result }
{
    let mut digits = [0u8; 20];
    let k = spell(n, &mut digits);
    put_text(out, at, &digits[..k])
}

// A number after a space.
// Asks: there is room for both.
fn put_spaced(out: &mut [u8], at: usize, n: u32) -> usize
    requires { at + (1 + length (decimal n)) ≤ length out.old }
    ensures { Wrote out.old at (32 ∷ decimal n) out.new result }
{
    let past = put_byte(out, at, b' ');
    put_number(out, past, n as u64)
}

// Each number after a space.
// Asks: there is room for them.
pub fn put_numbers(out: &mut [u8], at: usize, numbers: &[u32]) -> usize
    requires { at + length (spaced numbers.now) ≤ length out.old }
    ensures { Wrote out.old at (spaced numbers.now) out.new result }
{
    let mut to = at;
    for n in numbers {
        to = put_spaced(out, to, *n);
    }
    to
}
