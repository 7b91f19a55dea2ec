// The state of each row: 0 not met, 1 met, 2 met and gone.
ghost use Rattle.std.specs.Prelude.{◌≡◌, ◌<◌, length};
ghost use Rattle.judging.specs.Verdicts.{state_of};

// Asks: the row has a state.
pub fn state_of(state: &[u8], u: usize) -> u8
    requires { u < length state.now }
    ensures { result ≡ state_of state.now u }
{
    state[u]
}
