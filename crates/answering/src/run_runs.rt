// Recorded counts run through a chain.
ghost use Rattle.std.specs.Prelude.{◌≡◌, length};
ghost use Rattle.requests.specs.Runs.{words_in, signed_in, RunThere};
ghost use Rattle.running.specs.Run.{RunSays};

use register::run;
use requests::asked::RunAsked;
use requests::run::{signed_in, words_in};

// The values of a request run through the chain of its row, into its output.
// Asks: the arguments of such a request that are there, and as many words and numbers lent as their runs have.
pub fn run_runs(
    ask: &[u8],
    asked: RunAsked,
    words: &mut [u32],
    values: &mut [i32],
    output: &mut [i32],
) -> u32
    requires { RunThere ask.now asked ×
        (length words.old ≡ asked.store.count) ×
        (length values.old ≡ asked.values.count) ×
        (length output.old ≡ asked.output.count) }
    ensures run_says { RunSays (words_in ask.now asked.store) asked.row.count asked.channels.count
        (signed_in ask.now asked.values) (signed_in ask.now asked.output) result output.new }
    ensures words_after { (words.new ≡ words_in ask.now asked.store) ×
        (values.new ≡ signed_in ask.now asked.values) }
{
    let store = asked.store;
    let row = asked.row;
    let channels = asked.channels;
    let trace = asked.values;
    let room = asked.output;
    let u = row.count as u32;
    let n = channels.count as u32;
    words_in(ask, store, words);
    signed_in(ask, trace, values);
    signed_in(ask, room, output);
    run(words, u, n, values, output)
}
