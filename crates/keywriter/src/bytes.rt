// Big-endian numbers written into a lent run of bytes. Each writer returns the place past what it wrote.
ghost use Rattle.std.specs.Prelude.{[], ◌∷◌, ◌++◌, ◌+◌, ◌≤◌, ◌<◌, length};
ghost use Rattle.rules.specs.Writes.{Wrote};
ghost use Rattle.keys.specs.Bytes.{bytes16, bytes32};

// Asks: the number has two bytes, and there is room for them.
pub fn put_two(key: &mut [u8], at: usize, x: usize) -> usize
    requires { (x < 65536) × (at + 2 ≤ length key.old) }
    ensures { Wrote key.old at (bytes16 x) key.new result }
{
    key[at] = (x / 256) as u8;
    key[at + 1] = (x % 256) as u8;
    at + 2
}

// Asks: the number has four bytes, and there is room for them.
pub fn put_four(key: &mut [u8], at: usize, x: usize) -> usize
    requires { (x < 4294967296) × (at + 4 ≤ length key.old) }
    ensures { Wrote key.old at (bytes32 x) key.new result }
{
    let past = put_two(key, at, x / 65536);
    put_two(key, past, x % 65536)
}

// A number of four bytes and a byte after it: a row's label and count, or a sheet's length and version.
// Asks: they have four bytes and one, and there is room for them.
pub fn put_five(key: &mut [u8], at: usize, x: usize, y: usize) -> usize
    requires { (x < 4294967296) × (y < 256) × (at + 5 ≤ length key.old) }
    ensures { Wrote key.old at (bytes32 x ++ (y ∷ [])) key.new result }
{
    let past = put_four(key, at, x);
    key[past] = y as u8;
    at + 5
}
