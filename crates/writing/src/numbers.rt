// Numbers by first appearance: a row's number is how many trees appear first below it, a tree's number is that of its first row.
ghost use Rattle.std.specs.Prelude.{◌≡◌, ◌+◌, ◌≤◌, ◌<◌, length};
ghost use Rattle.rules.specs.Lists.{firsts};
ghost use Rattle.rules.specs.Writes.{over_front};
ghost use Rattle.rounds.specs.Classes.{class_of};
ghost use Rattle.numbering.specs.Numbers.{trees_below, row_number};
ghost use Rattle.writing.specs.Asked.{NumberThere};

use rows::entry;

// The trees that appear first below the next row, from those below row u.
fn count_row(cls: &[u16], u: usize, count: usize) -> usize
    requires { (u < length cls.now) × (count < 2048) × (count ≡ trees_below (class_of cls.now) u) }
    ensures { result ≡ trees_below (class_of cls.now) (u + 1) }
{
    if entry(cls, u) == u { count + 1 } else { count }
}

// How many trees there are.
// Asks: a class for each row, and at most 2,048 rows.
pub fn count_trees(cls: &[u16], n: usize) -> usize
    requires { (n ≤ 2048) × (n ≤ length cls.now) }
    ensures { result ≡ trees_below (class_of cls.now) n }
{
    let mut count = 0;
    for u in 0..n {
        count = count_row(cls, u, count);
    }
    count
}

// The number of each row, and how many trees there are. Entries past the rows stand.
// Asks: both arrays have an entry for each row, and rows are at most 2,048, so that a number fits an entry.
pub fn number_rows(cls: &[u16], n: usize, numbers: &mut [u16]) -> usize
    requires { (n ≤ 2048) × (n ≤ length cls.now) × (n ≤ length numbers.old) }
    ensures { (numbers.new ≡ over_front (firsts (trees_below (class_of cls.now)) n) numbers.old) ×
        (result ≡ trees_below (class_of cls.now) n) }
{
    let mut count = 0;
    for u in 0..n {
        numbers[u] = count as u16;
        count = count_row(cls, u, count);
    }
    count
}

// The number of a row's tree.
// Asks: the row has a class, and its class a number. Callers ask for rows of the view and their inputs.
pub fn number_of(cls: &[u16], numbers: &[u16], u: usize) -> u32
    requires { NumberThere cls.now numbers.now u }
    ensures { result ≡ row_number (class_of cls.now) u }
{
    numbers[entry(cls, u)] as u32
}
