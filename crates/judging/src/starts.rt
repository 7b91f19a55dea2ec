// The starts marked: the rows from one up to another, and no other.
ghost use Rattle.std.specs.Prelude.{◌≡◌, ◌≤◌, length};
ghost use Rattle.judging.specs.Verdicts.{start_state, Starts};

// The state that row u begins with.
fn start_state(from: usize, to: usize, u: usize) -> u8
    ensures { result ≡ start_state from to u }
{
    if u < from {
        return 0;
    }
    if u < to {
        return 1;
    }
    0
}

// Asks: a state for each of n rows. Whatever stood there is written over. The starts may end before they begin or behind the rows, so that no
// part of the states is theirs to fill.
pub fn mark_starts(state: &mut [u8], n: usize, from: usize, to: usize)
    requires { n ≤ length state.old }
    ensures { Starts n from to state.new }
{
    for u in 0..n {
        state[u] = start_state(from, to, u);
    }
}
