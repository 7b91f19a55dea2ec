// The place of a row in the result.
ghost use Rattle.std.specs.Prelude.{◌≡◌, ◌≤◌, length};
ghost use Rattle.appending.specs.Placed.{place_put};

use rows::entry;

// A row of the sheet keeps its place, and a row of the store has the place that was noted.
// Asks: a place for each row of the store.
pub fn place_of(stored: usize, places: &[u16], x: usize) -> usize
    requires { stored ≤ length places.now }
    ensures { result ≡ place_put stored places.now x }
{
    if x < stored {
        return entry(places, x);
    }
    x - stored
}
