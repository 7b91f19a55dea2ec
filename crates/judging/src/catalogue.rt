// The catalogue: for each operation below 32 the inputs that it has, or free.
ghost use Rattle.std.specs.Prelude.{◌≡◌, ◌<◌};
ghost use Rattle.rules.specs.Answers.{Says};
ghost use Rattle.loops.specs.Catalogue.{inputs_of};
ghost use Rattle.judging.specs.Rules.{ListedAs};

use store::row::Row;

// No operation has so many inputs. It is a number as it is in the definition, which the promise of `inputs_of` cites.
pub const FREE: usize = 255;

const CATALOGUE: [u8; 32] = [
    255, 0, 0, 2, 2, 1, 1, 1, 2, 2, 3, 4, 1, 255, 255, 255, 255, 255, 255, 255, 255, 255, 255, 255,
    255, 255, 255, 255, 255, 255, 255, 255,
];

// The table's entry.
fn entry_of(operation: usize) -> u8
    requires { operation < 32 }
    ensures { result ≡ inputs_of operation }
{
    CATALOGUE[operation]
}

// The inputs that an operation has, or free. Operations past the table are free.
pub fn inputs_of(operation: usize) -> usize
    ensures { result ≡ inputs_of operation }
{
    if operation < 32 {
        return entry_of(operation) as usize;
    }
    FREE
}

// Whether a row is of a catalogue operation with its input count.
pub fn listed(row: Row) -> bool
    ensures { Says (ListedAs row.label row.count) result }
{
    let inputs = inputs_of((row.label / 65536) as usize);
    if inputs == FREE {
        return false;
    }
    row.count as usize == inputs
}
