// Keys: writing one, and telling whether bytes are one.
ghost use Rattle.std.specs.Prelude.{◌≡◌, length};
ghost use Rattle.requests.specs.Runs.{words_in, bytes_in, BytesThere, KeyThere};
ghost use Rattle.keys.specs.Sheets.{KeySays};
ghost use Rattle.keying.specs.Written.{WriteSays};

use register::{Written, is_key, write_key};
use requests::argument::Argument;
use requests::asked::KeyAsked;
use requests::run::{bytes_at, bytes_in, words_in};

// The key of the request's row written into its buffer.
// Asks: the arguments of a key that are there, and as many words and bytes lent as their runs have.
pub fn key_runs(ask: &[u8], asked: KeyAsked, words: &mut [u32], buffer: &mut [u8]) -> Written
    requires { KeyThere ask.now asked × (length words.old ≡ asked.store.count) × (length buffer.old ≡ asked.buffer.count) }
    ensures write_says { WriteSays (words_in ask.now asked.store) asked.row.count (bytes_in ask.now asked.buffer) result
        buffer.new }
    ensures words_after { words.new ≡ words_in ask.now asked.store }
{
    let store = asked.store;
    let row = asked.row;
    let run = asked.buffer;
    words_in(ask, store, words);
    bytes_in(ask, run, buffer);
    write_key(words, row.count as u32, buffer)
}

// Whether the bytes of a run are a key.
// Asks: a byte run that is there.
pub fn is_key_run(ask: &[u8], run: Argument) -> bool
    requires { BytesThere ask.now run }
    ensures { KeySays (bytes_in ask.now run) result }
{
    is_key(bytes_at(ask, run))
}
