// A store mended.
ghost use Rattle.std.specs.Prelude.{◌≡◌, length};
ghost use Rattle.store.specs.Layout.{room};
ghost use Rattle.requests.specs.Runs.{words_in, MendThere};
ghost use Rattle.mender.specs.Says.{MendSays};

use register::{Mended, mend};
use requests::asked::MendAsked;
use requests::run::words_in;

// The store of a request mended, with its list.
// Asks: the arguments of such a request that are there, and as many words lent as their runs have.
pub fn mend_runs(ask: &[u8], asked: MendAsked, words: &mut [u32], numbers: &mut [u32]) -> Mended
    requires { MendThere ask.now asked × (length words.old ≡ asked.store.count) × (length numbers.old ≡ asked.list.count) }
    ensures { MendSays room (words_in ask.now asked.store) (words_in ask.now asked.list) result
        words.new numbers.new }
{
    let store = asked.store;
    let list = asked.list;
    words_in(ask, store, words);
    words_in(ask, list, numbers);
    mend(words, numbers)
}
