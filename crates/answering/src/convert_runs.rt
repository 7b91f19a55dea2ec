// An old sheet converted, beside the store that it was drawn against.
ghost use Rattle.std.specs.Prelude.{◌≡◌, length};
ghost use Rattle.requests.specs.Runs.{words_in, bytes_in, ConvertThere};
ghost use Rattle.converts.specs.Convert.{ConvertSays};

use register::{Converted, convert};
use requests::asked::ConvertAsked;
use requests::run::{bytes_at, bytes_in, words_in};

// The sheet of a request converted beside its store, into its buffer.
// Asks: the arguments of such a request that are there, and as many words and bytes lent as their runs have.
pub fn convert_runs(
    ask: &[u8],
    asked: ConvertAsked,
    words: &mut [u32],
    buffer: &mut [u8],
) -> Converted
    requires { ConvertThere ask.now asked ×
        (length words.old ≡ asked.store.count) ×
        (length buffer.old ≡ asked.buffer.count) }
    ensures convert_says { ConvertSays (words_in ask.now asked.store) (bytes_in ask.now asked.sheet)
        (bytes_in ask.now asked.buffer) result buffer.new }
    ensures words_after { words.new ≡ words_in ask.now asked.store }
{
    let store = asked.store;
    let sheet = asked.sheet;
    let run = asked.buffer;
    words_in(ask, store, words);
    bytes_in(ask, run, buffer);
    convert(words, bytes_at(ask, sheet), buffer)
}
