// Recorded counts run through the chain of a row of a store.
#![tactic(auto)]

ghost use Rattle.std.specs.Prelude.{◌≡◌, not, ◌<◌, length};
ghost use Rattle.rules.specs.Answers.{Says};
ghost use Rattle.store.specs.Layout.{store_graph, room};
ghost use Rattle.checking.specs.Checked.{SoundStore};
ghost use Rattle.running.specs.Run.{NoTrace, RunSays};
ghost use Rattle.ticking.specs.Memory.{graph_of};
ghost use Rattle.ticking.specs.Outcomes.{Outputs};
ghost use Rattle.runner.specs.Steps.{WholeTicks, ChainedIn, TracedIn};

use checking::look_over;
use judging::misfit::Misfit;
use ordering::order_from;
use store::row::ROOM;
use ticking::channels::channels_there;
use ticking::order::Chain;
use ticking::run::run_ticks;

// The most channels that a trace may have.
const MOST_CHANNELS: u32 = 8;

// Whether the channel count is from 1 to 8, and so many values are whole ticks.
fn whole_ticks(channels: u32, count: usize) -> bool
    ensures { Says (WholeTicks channels count) result }
{
    if channels < 1 {
        return false;
    }
    if MOST_CHANNELS < channels {
        return false;
    }
    count % (channels as usize) == 0
}

// Nothing is left to refuse: an output a tick. Both arrays begin as zeros, which is what a hold gives at tick 0.
fn run_through(chain: &Chain, row: usize, channels: usize, values: &[i32], output: &mut [i32])
    requires { TracedIn chain.now row channels values.now output.old }
    ensures { Outputs (graph_of chain.now) row channels values.now output.old output.new }
{
    let mut first = [0i32; 1024];
    let mut second = [0i32; 1024];
    run_ticks(
        chain,
        row,
        channels,
        values,
        &mut first,
        &mut second,
        output,
    );
}

// Whether the trace fits the chain: where not, 17 applies.
fn trace_fits(chain: &Chain, row: usize, channels: u32, values: &[i32]) -> bool
    requires { ChainedIn chain.now row }
    ensures { Says (NoTrace (store_graph room chain.now.store.now) row channels (length values.now)) (not result) }
{
    if !whole_ticks(channels, values.len()) {
        return false;
    }
    channels_there(chain, channels)
}

// The rows are in order: 17 and 18, or the outputs.
fn run_chain(chain: &Chain, row: usize, channels: u32, values: &[i32], output: &mut [i32]) -> u32
    requires { ChainedIn chain.now row }
    ensures { RunSays chain.now.store.now row channels values.now output.old result output.new }
{
    if !trace_fits(chain, row, channels, values) {
        return 17;
    }
    let count = channels as usize;
    if output.len() < values.len() / count {
        return 18;
    }
    run_through(chain, row, count, values, output);
    0
}

// The row is in use: 12 and 13, or the rest.
fn run_judged(
    store: &[u32],
    n: usize,
    row: usize,
    channels: u32,
    values: &[i32],
    state: &mut [u8],
    queue: &mut [u16],
    output: &mut [i32],
) -> u32
    requires sound_store { SoundStore store.now n × (row < n) }
    requires state_len { (length state.old ≡ 1024) × (length queue.old ≡ 1024) }
    ensures { RunSays store.now row channels values.now output.old result output.new }
{
    match order_from(store, ROOM, n, row, state, queue) {
        Err(Misfit::NotListed) => 12,
        Err(Misfit::NotHeld) => 13,
        Ok(filled) => {
            let chain = Chain {
                store,
                most: ROOM,
                n,
                queue,
                filled,
            };
            run_chain(&chain, row, channels, values, output)
        }
    }
}

// The store is sound: 9, or the rest.
fn run_row(
    store: &[u32],
    n: usize,
    row: usize,
    channels: u32,
    values: &[i32],
    output: &mut [i32],
) -> u32
    requires { SoundStore store.now n }
    ensures { RunSays store.now row channels values.now output.old result output.new }
{
    if n <= row {
        return 9;
    }
    let mut state = [0u8; 1024];
    let mut queue = [0u16; 1024];
    run_judged(
        store, n, row, channels, values, &mut state, &mut queue, output,
    )
}

// 1, 2, 9, 12, 13, 17 and 18 in this order, and then nothing is changed; or done, one output a tick.
pub fn run(store: &[u32], row: u32, channels: u32, values: &[i32], output: &mut [i32]) -> u32
    ensures { RunSays store.now row channels values.now output.old result output.new }
{
    match look_over(store) {
        Err(flaw) => flaw.number(),
        Ok(n) => run_row(store, n, row as usize, channels, values, output),
    }
}
