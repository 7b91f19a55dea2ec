// The values of a row's inputs, read straight from the store's words.
ghost use Rattle.std.specs.Prelude.{◌≤◌, ◌<◌, length};
ghost use Rattle.running.specs.Values.{of_inputs};
ghost use Rattle.ticking.specs.Memory.{graph_of, WalkableIn, value_in, Number, Gathered};

use crate::order::Chain;
use crate::values::value_of;
use store::row::{ROOM, count_of, input_of};

// The value of input j of row u, or 0 where it has no such input. An unused input word is 0, so that a value is read without a test.
// Asks: a shaped store, a row in use, and a value for each row in use.
#[inline(always)]
pub fn input_now(chain: &Chain, values: &[i32], u: usize, j: usize) -> i32
    requires { WalkableIn chain.now × (u < chain.now.n) × (chain.now.n ≤ length values.now) }
    ensures { Number (of_inputs (graph_of chain.now) (value_in values.now) u j) result }
{
    if chain.most <= j {
        return 0;
    }
    let x = value_of(values, input_of(chain.store, chain.most, u, j) as usize);
    if j < count_of(chain.store, chain.most, u) as usize {
        return x;
    }
    0
}

// The values of all inputs of row u, and zero past them.
// Asks: a shaped store, a row in use, and a value for each row in use.
#[inline(always)]
pub fn inputs_now(chain: &Chain, values: &[i32], u: usize) -> [i32; ROOM]
    requires { WalkableIn chain.now × (u < chain.now.n) × (chain.now.n ≤ length values.now) }
    ensures { Gathered (graph_of chain.now) values.now u result }
{
    let mut found = [0i32; ROOM];
    for j in 0..ROOM {
        found[j] = input_now(chain, values, u, j);
    }
    found
}
