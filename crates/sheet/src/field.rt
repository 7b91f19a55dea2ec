// Big-endian numbers of a run of bytes.
ghost use Rattle.std.specs.Prelude.{◌≡◌, ◌+◌, ◌≤◌, ◌<◌, length};
ghost use Rattle.sheet.specs.Bytes.{byte_at, be16, be32};

// Asks: the byte is there. Each caller has tested the length.
pub fn byte(b: &[u8], at: usize) -> usize
    requires { at < length b.now }
    ensures { (result ≡ byte_at b.now at) × (result < 256) }
{
    b[at] as usize
}

// Asks: both bytes are there.
pub fn two(b: &[u8], at: usize) -> usize
    requires { at + 2 ≤ length b.now }
    ensures { (result ≡ be16 b.now at) × (result < 65536) }
{
    byte(b, at) * 256 + byte(b, at + 1)
}

// Asks: all four bytes are there.
pub fn four(b: &[u8], at: usize) -> usize
    requires { at + 4 ≤ length b.now }
    ensures { (result ≡ be32 b.now at) × (result < 4294967296) }
{
    two(b, at) * 65536 + two(b, at + 2)
}
