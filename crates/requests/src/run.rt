// What a run holds: its words, its signed numbers, and its bytes where they stand or copied to where they may be written.
ghost use Rattle.std.specs.Prelude.{◌≡◌, ◌<◌, length};
ghost use Rattle.std.specs.Int.{w32};
ghost use Rattle.std.proofs.Common.{SFits};
ghost use Rattle.requests.specs.Runs.{word_at, signed_of, words_in, signed_in, bytes_in, WordsThere, BytesThere};

use crate::argument::Argument;
use sheet::field::four;

// Asks: the word is one of a word run that is there.
fn word_of(ask: &[u8], run: Argument, i: usize) -> u32
    requires { WordsThere ask.now run × (i < run.count) }
    ensures { result ≡ word_at ask.now run.at i }
{
    let at = run.at;
    four(ask, at + 4 * i) as u32
}

// Fills what is lent with the words of a run.
// Asks: a word run that is there, and as many words lent as it has.
pub fn words_in(ask: &[u8], run: Argument, words: &mut [u32])
    requires { WordsThere ask.now run × (length words.old ≡ run.count) }
    ensures { words.new ≡ words_in ask.now run }
{
    for (i, word) in words.iter_mut().enumerate() {
        *word = word_of(ask, run, i);
    }
}

// A word as a signed number: from 2,147,483,648 on the number is negative, and 4,294,967,295 is -1.
fn signed(x: u32) -> i32
    ensures { (result ≡ signed_of x) × SFits w32 result }
{
    x.cast_signed()
}

// Fills what is lent with the signed numbers of a run.
// A loop beside that of the words: one for any element would carry a closure's contract, which is longer than either.
// Asks: a word run that is there, and as many numbers lent as it has.
pub fn signed_in(ask: &[u8], run: Argument, numbers: &mut [i32])
    requires { WordsThere ask.now run × (length numbers.old ≡ run.count) }
    ensures { numbers.new ≡ signed_in ask.now run }
{
    for (i, number) in numbers.iter_mut().enumerate() {
        *number = signed(word_of(ask, run, i));
    }
}

// Fills what is lent with the bytes of a run.
// Asks: a byte run that is there, and as many bytes lent as it has.
pub fn bytes_in(ask: &[u8], run: Argument, bytes: &mut [u8])
    requires { BytesThere ask.now run × (length bytes.old ≡ run.count) }
    ensures { bytes.new ≡ bytes_in ask.now run }
{
    bytes.copy_from_slice(bytes_at(ask, run));
}

// The bytes of a run where they stand.
// Asks: a byte run that is there.
pub fn bytes_at(ask: &[u8], run: Argument) -> &[u8]
    requires { BytesThere ask.now run }
    ensures { result.now ≡ bytes_in ask.now run }
{
    let at = run.at;
    let end = run.end;
    &ask[at..end]
}
