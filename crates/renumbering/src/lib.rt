// The list filled: each row left has the number of its tree, by the first row left of its class.
#![tactic(auto)]

ghost use Rattle.renumbering.specs.Numbered.{RowAsks, RowNumbered, NumberAsks, NumbersGiven};

use rows::entry;
use spoiling::GONE;

// One row numbered; handed back is how many numbers are given then.
fn number_row(list: &mut [u32], cls: &[u16], numbers: &mut [u16], u: usize, k: usize) -> usize
    requires { RowAsks list.old cls.now numbers.old u k }
    ensures { RowNumbered cls.now u k list.old numbers.old list.new numbers.new
        result }
{
    if list[u] == GONE {
        return k;
    }
    let h = entry(cls, u);
    let x = entry(numbers, h);
    if x != 0 {
        list[u] = (x - 1) as u32;
        return k;
    }
    numbers[h] = (k + 1) as u16;
    list[u] = k as u32;
    k + 1
}

// All rows numbered; handed back is the kept count.
// Asks: at most 1,024 rows with an entry each, classes that have an entry, and numbers that are all zero.
pub fn number(list: &mut [u32], cls: &[u16], numbers: &mut [u16], n: usize) -> usize
    requires { NumberAsks n list.old cls.now numbers.old }
    ensures { NumbersGiven n cls.now list.old list.new result }
{
    let mut k = 0;
    for u in 0..n {
        k = number_row(list, cls, numbers, u, k);
    }
    k
}
