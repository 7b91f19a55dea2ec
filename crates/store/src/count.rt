// Word 0: the count of rows in use.
ghost use Rattle.std.specs.Prelude.{◌≡◌, ◌<◌, length, set};
ghost use Rattle.store.specs.Layout.{in_use};

// Asks: there is a word for it, here and below. A run of no words is refused before.
pub fn in_use(store: &[u32]) -> usize
    requires { 0 < length store.now }
    ensures { result ≡ in_use store.now }
{
    store[0] as usize
}

// Asks: there is a word for it, and it fits.
pub fn write_count(store: &mut [u32], count: usize)
    requires { (0 < length store.old) × (count < 65536) }
    ensures { store.new ≡ set store.old 0 count }
{
    store[0] = count as u32;
}
