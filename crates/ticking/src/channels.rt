// Whether a chain's channels are all there.
ghost use Rattle.std.specs.Prelude.{not, ◌<◌};
ghost use Rattle.rules.specs.Answers.{Says};
ghost use Rattle.ticking.specs.Memory.{graph_of, WalkableIn, LinedIn};
ghost use Rattle.ticking.specs.Outcomes.{Astray, SomeAstray};

use crate::order::{Chain, row_at};
use store::row::label_of;

// The operation that reads a channel.
const CHANNEL: u32 = 1;

// Whether row u is a channel whose setting is not below the channel count.
fn astray(chain: &Chain, channels: u32, u: usize) -> bool
    requires { WalkableIn chain.now × (u < chain.now.n) }
    ensures { Says (Astray (graph_of chain.now) channels u) result }
{
    let label = label_of(chain.store, chain.most, u);
    if label / 65536 != CHANNEL {
        return false;
    }
    channels <= label % 65536
}

// Whether the channels of the queue's rows are all there: where not, some row of it is a channel that is not.
// Asks: a shaped store, and rows of it in the queue.
pub fn channels_there(chain: &Chain, channels: u32) -> bool
    requires { LinedIn chain.now }
    ensures { Says (SomeAstray (graph_of chain.now) chain.now.queue.now chain.now.filled channels) (not result) }
{
    for k in 0..chain.filled {
        if astray(chain, channels, row_at(chain, k)) {
            return false;
        }
    }
    true
}
