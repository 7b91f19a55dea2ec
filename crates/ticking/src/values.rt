// A value for each row: the one reader and the one writer of them.
ghost use Rattle.std.specs.Prelude.{◌≡◌, ◌<◌, length, set};
ghost use Rattle.ticking.specs.Memory.{value_in, Number};

// Asks: the row has a value.
pub fn value_of(values: &[i32], u: usize) -> i32
    requires { u < length values.now }
    ensures { Number (value_in values.now u) result }
{
    values[u]
}

// Asks: the row has a value.
pub fn put_value(values: &mut [i32], u: usize, x: i32)
    requires { u < length values.old }
    ensures { values.new ≡ set values.old u x }
{
    values[u] = x;
}
