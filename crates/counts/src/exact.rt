// Signed arithmetic in 64 bits, where no result of 32-bit numbers is lost, and the way back to 32.
ghost use Rattle.std.specs.Prelude.{◌≡◌, ◌<◌, pos, ◌+ℤ◌, ◌-ℤ◌, ◌*ℤ◌};
ghost use Rattle.std.specs.Int.Signed.{quot_z};
ghost use Rattle.std.specs.Int.{w32, w64};
ghost use Rattle.std.proofs.Common.{SFits};
ghost use Rattle.counts.specs.Signed.{clamped};

// A number of 32 bits in 64. Callers read it back, so each result is said to fit.
pub fn wide(x: i32) -> i64
    ensures { (result ≡ x) × SFits w32 result }
{
    x as i64
}

// Asks: the number fits.
pub fn narrow(x: i64) -> i32
    requires { SFits w32 x }
    ensures { (result ≡ x) × SFits w32 result }
{
    x as i32
}

// Asks: the sum fits.
pub fn plus(a: i64, b: i64) -> i64
    requires { SFits w64 (a +ℤ b) }
    ensures { (result ≡ a +ℤ b) × SFits w64 result }
{
    a + b
}

// Asks: the difference fits.
pub fn less(a: i64, b: i64) -> i64
    requires { SFits w64 (a -ℤ b) }
    ensures { (result ≡ a -ℤ b) × SFits w64 result }
{
    a - b
}

// Asks: the product fits.
pub fn times(a: i64, b: i64) -> i64
    requires { SFits w64 (a *ℤ b) }
    ensures { (result ≡ a *ℤ b) × SFits w64 result }
{
    a * b
}

// A quotient toward zero, which always fits. Asks: the divisor is not zero.
pub fn over(a: i64, b: u32) -> i64
    requires { 0 < b }
    ensures { (result ≡ quot_z a (pos b)) × SFits w64 result }
{
    a / (b as i64)
}

// The nearest number of 32 bits.
pub fn clamp(x: i64) -> i32
    ensures { (result ≡ clamped x) × SFits w32 result }
{
    if x < -2147483648 {
        return -2147483648;
    }
    if 2147483647 < x {
        return 2147483647;
    }
    narrow(x)
}

// The exact sum of two numbers of 32 bits.
pub fn sum_of_two(a: i32, b: i32) -> i64
    ensures { (result ≡ a +ℤ b) × SFits w64 result }
{
    plus(wide(a), wide(b))
}

// The exact difference of two numbers of 32 bits.
pub fn difference_of_two(a: i32, b: i32) -> i64
    ensures { (result ≡ a -ℤ b) × SFits w64 result }
{
    less(wide(a), wide(b))
}
