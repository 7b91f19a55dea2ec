// One tick: each row computed once, those behind it first.
ghost use Rattle.std.specs.Prelude.{◌≡◌, ◌≤◌, ◌<◌, length};
ghost use Rattle.ticking.specs.Memory.{graph_of, WalkableIn, LinedIn, Number, row_now, Ticked};

use crate::inputs::{input_now, inputs_now};
use crate::order::{Chain, row_at};
use crate::values::put_value;
use results::result;
use store::row::{ROOM, label_of};

// The operation that gives its input one tick before.
const HOLD: u32 = 6;

// The result of row u's operation on the values there. A hold's input is read from the values before, and it alone looks at them.
#[inline(always)]
fn row_now(chain: &Chain, channels: &[i32], before: &[i32], values: &[i32], u: usize) -> i32
    requires { WalkableIn chain.now × (u < chain.now.n) × (chain.now.n ≤ length before.now) × (chain.now.n ≤ length values.now) }
    ensures { Number (row_now (graph_of chain.now) channels.now before.now values.now u) result }
{
    let label = label_of(chain.store, chain.most, u);
    if label / 65536 == HOLD {
        return input_now(chain, before, u, 0);
    }
    let x = inputs_now(chain, values, u);
    result(label / 65536, label % 65536, channels, 0, x)
}

// The values of the queue's rows at a tick, from the back of the queue.
#[inline(always)]
fn tick_all(chain: &Chain, channels: &[i32], before: &[i32], values: &mut [i32])
    requires { LinedIn chain.now × (chain.now.n ≤ length before.now) × (chain.now.n ≤ length values.old) }
    ensures { Ticked (graph_of chain.now) chain.now.n chain.now.queue.now chain.now.filled channels.now
        before.now values.new 0 }
{
    for k in (0..chain.filled).rev() {
        let u = row_at(chain, k);
        let x = row_now(chain, channels, before, values, u);
        put_value(values, u, x);
    }
}

// The same for rows with another room, which the register's own calls do not have.
#[cold]
#[inline(never)]
fn tick_other(chain: &Chain, channels: &[i32], before: &[i32], values: &mut [i32])
    requires { LinedIn chain.now × (chain.now.n ≤ length before.now) × (chain.now.n ≤ length values.old) }
    ensures { Ticked (graph_of chain.now) chain.now.n chain.now.queue.now chain.now.filled channels.now
        before.now values.new 0 }
{
    tick_all(chain, channels, before, values);
}

// The values of the queue's rows at a tick.
// Rows with the register's own room have a loop of their own: a chain holds the room, and only there does the compiler know it.
// Asks: rows in an order, and a value for each row, before the tick and at it.
pub fn tick(chain: &Chain, channels: &[i32], before: &[i32], values: &mut [i32])
    requires { LinedIn chain.now × (chain.now.n ≤ length before.now) × (chain.now.n ≤ length values.old) }
    ensures { Ticked (graph_of chain.now) chain.now.n chain.now.queue.now chain.now.filled channels.now
        before.now values.new 0 }
{
    if chain.most != ROOM {
        tick_other(chain, channels, before, values);
        return;
    }
    let own = Chain {
        most: ROOM,
        ..*chain
    };
    tick_all(&own, channels, before, values);
}
