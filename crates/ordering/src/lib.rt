// The store rows that a row leads to, in an order in which each that is no hold stands before its inputs; or why there is none.
#![tactic(auto)]

ghost use Rattle.store.specs.Layout.{store_graph};
ghost use Rattle.ordering.specs.Order.{Orderable, OrderSays};

use judging::misfit::Misfit;
use judging::starts::mark_starts;
use judging::verdict::verdict_of;
use rows::put_entry;
use rows::viewing::View;

// With no sheet beside the store the row is the only start. How many rows of the queue are the order.
// Asks: a store in shape, a row in use, and an entry of both arrays for each row in use. Whatever stood in them is written over.
pub fn order_from(
    store: &[u32],
    most: usize,
    n: usize,
    row: usize,
    state: &mut [u8],
    queue: &mut [u16],
) -> Result<usize, Misfit>
    requires { Orderable most store.now n row state.old queue.old }
    ensures { OrderSays (store_graph most store.now) n row queue.new result }
{
    let view = View {
        store,
        most,
        stored: n,
        bytes: &[],
        table: &[],
    };
    mark_starts(state, n, row, row + 1);
    put_entry(queue, 0, row);
    verdict_of(&view, state, queue, 1)
}
