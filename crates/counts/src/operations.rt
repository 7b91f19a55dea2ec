// The operations of a chain on numbers of 32 bits: exact, and then clamped.
ghost use Rattle.std.specs.Prelude.{◌≡◌, ◌<◌, neg_ℤ, ◌+ℤ◌, ◌-ℤ◌};
ghost use Rattle.std.specs.Int.{w32};
ghost use Rattle.std.proofs.Common.{SFits};
ghost use Rattle.counts.specs.Signed.{clamped, signed16, scaled, mean_of_four};
ghost use Rattle.counts.specs.Signed as signed;

use crate::exact::{clamp, difference_of_two, less, narrow, over, plus, sum_of_two, times, wide};

pub fn sum(a: i32, b: i32) -> i32
    ensures { (result ≡ clamped (a +ℤ b)) × SFits w32 result }
{
    clamp(sum_of_two(a, b))
}

// The first less the second.
pub fn difference(a: i32, b: i32) -> i32
    ensures { (result ≡ clamped (a -ℤ b)) × SFits w32 result }
{
    clamp(difference_of_two(a, b))
}

pub fn negate(a: i32) -> i32
    ensures { (result ≡ clamped (neg_ℤ a)) × SFits w32 result }
{
    difference(0, a)
}

// Times a setting, over 256.
// Asks: the setting has 16 bits, as in every label.
pub fn scale(x: i32, s: u32) -> i32
    requires { s < 65536 }
    ensures { (result ≡ scaled x s) × SFits w32 result }
{
    clamp(over(times(wide(x), s as i64), 256))
}

// A mean of numbers of 32 bits is one, so nothing is clamped.
pub fn mean_of_four(a: i32, b: i32, c: i32, d: i32) -> i32
    ensures { (result ≡ mean_of_four a b c d) × SFits w32 result }
{
    narrow(over(plus(sum_of_two(a, b), sum_of_two(c, d)), 4))
}

pub fn greater(a: i32, b: i32) -> i32
    ensures { (result ≡ signed.greater a b) × SFits w32 result }
{
    if a < b {
        return b;
    }
    a
}

pub fn lesser(a: i32, b: i32) -> i32
    ensures { (result ≡ signed.lesser a b) × SFits w32 result }
{
    if b < a {
        return b;
    }
    a
}

// The second if the first is above zero, else the third.
pub fn choose(a: i32, b: i32, c: i32) -> i32
    ensures { (result ≡ signed.chosen a b c) × SFits w32 result }
{
    if 0 < a {
        return b;
    }
    c
}

// A setting as a signed 16-bit number.
// Asks: the setting has 16 bits, as in every label.
pub fn constant(s: u32) -> i32
    requires { s < 65536 }
    ensures { (result ≡ signed16 s) × SFits w32 result }
{
    if 32767 < s {
        return narrow(less(s as i64, 65536));
    }
    s as i32
}
