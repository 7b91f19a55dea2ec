// Tick after tick: two arrays take turns, one with the values of the tick before and one for those of the tick, so that nothing is copied.
ghost use Rattle.std.specs.Prelude.{◌≤◌, ◌<◌, length};
ghost use Rattle.loops.specs.Orders.{StandsIn};
ghost use Rattle.running.specs.Run.{trace, ticks};
ghost use Rattle.ticking.specs.Memory.{graph_of, LinedIn, Blank, Turned};
ghost use Rattle.ticking.specs.Outcomes.{Outputs};

use crate::order::Chain;
use crate::tick::tick;
use crate::values::{put_value, value_of};

// Tick t, and the value of a row at it. At an even tick the second array has the values before.
fn turn(
    chain: &Chain,
    row: usize,
    channels: &[i32],
    t: usize,
    first: &mut [i32],
    second: &mut [i32],
) -> i32
    requires { LinedIn chain.now × (row < chain.now.n) × (chain.now.n ≤ length first.old) × (chain.now.n ≤ length second.old) }
    ensures { Turned (graph_of chain.now) chain.now.n chain.now.queue.now chain.now.filled channels.now t row
        first.old second.old first.new second.new result }
{
    if t % 2 == 0 {
        tick(chain, channels, second, first);
        return value_of(first, row);
    }
    tick(chain, channels, first, second);
    value_of(second, row)
}

// Tick t over its own channels, a part of all values.
fn turn_at(
    chain: &Chain,
    row: usize,
    channels: usize,
    values: &[i32],
    t: usize,
    first: &mut [i32],
    second: &mut [i32],
) -> i32
    requires lined { LinedIn chain.now × (row < chain.now.n) × (chain.now.n ≤ length first.old) × (chain.now.n ≤ length second.old) }
    requires channels_nonzero { (0 < channels) × (t < ticks values.now channels) }
    ensures { Turned (graph_of chain.now) chain.now.n chain.now.queue.now chain.now.filled (trace values.now channels t) t row
        first.old second.old first.new second.new result }
{
    let at = t * channels;
    let end = at + channels;
    turn(chain, row, &values[at..end], t, first, second)
}

// The value of a row at every tick.
// Asks: rows in an order, the asked one among them; a channel; an output for each tick; and two values for each row, those of the second
// array 0, which is what a hold gives at tick 0.
pub fn run_ticks(
    chain: &Chain,
    row: usize,
    channels: usize,
    values: &[i32],
    first: &mut [i32],
    second: &mut [i32],
    output: &mut [i32],
)
    requires lined { LinedIn chain.now × StandsIn chain.now.queue.now 0 chain.now.filled row }
    requires channels_nonzero { (0 < channels) × (ticks values.now channels ≤ length output.old) }
    requires n_in_bounds { (chain.now.n ≤ length first.old) × (chain.now.n ≤ length second.old) × Blank chain.now.n second.old }
    ensures { Outputs (graph_of chain.now) row channels values.now output.old output.new }
{
    let count = values.len() / channels;
    for t in 0..count {
        let x = turn_at(chain, row, channels, values, t, first, second);
        put_value(output, t, x);
    }
}
