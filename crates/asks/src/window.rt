// The bytes of the input that are held: what is left of them moves to the front, and one read brings more.
// A read may bring any number of bytes, so that a request may come in many parts.
ghost use Rattle.std.specs.Prelude.{◌≡◌, ◌+◌, ◌-◌, ◌≤◌, ◌<◌, length, take, drop, MatchResult};
ghost use Rattle.requests.specs.declared.argument.Stop.TheVariants.{More};
ghost use Rattle.asks.specs.Window.{Roomy, ReadAfter};

use standard::{Failed, Streams, read_some};

// So many bytes are held, at the front of those lent. There is room for the longest request.
#[derive(Drop)]
pub struct Window<'a> {
    bytes: &'a mut [u8],
    count: usize,
    ghost inside: { count ≤ length bytes.now },
    ghost wide: { 163853 ≤ length bytes.now },
}

// Asks: the bytes from the place on are among those held, and these among those lent.
fn move_down(bytes: &mut [u8], at: usize, held: usize)
    requires { (at ≤ held) × (held ≤ length bytes.old) }
    ensures { take (held - at) bytes.new ≡ take (held - at) (drop at bytes.old) }
{
    if at == 0 {
        return;
    }
    let left = held - at;
    for i in 0..left {
        bytes[i] = bytes[at + i];
    }
}

impl<'a> Window<'a> {
    // Nothing is held at first.
    // Asks: room for the longest request.
    pub fn new(bytes: &'a mut [u8]) -> Window<'a>
        requires { 163853 ≤ length bytes.old }
        ensures { result.count ≡ 0 }
    {
        Window { bytes, count: 0 }
    }

    pub fn held(&self) -> &[u8]
        ensures { result.now ≡ take self.now.count self.now.bytes.now }
    {
        &self.bytes[..self.count]
    }

    // What is left over moves to the front, and a read brings more after it: how many bytes came.
    // Asks: the place is among the bytes held, and there is room for more: a read into no room would look like the end of the input.
    pub fn read_after(&mut self, from: Streams, at: usize) -> Result<usize, Failed>
        requires { Roomy (length self.old.bytes.now) More at self.old.count }
        ensures { MatchResult result (λ came. ReadAfter self.old.bytes.now at self.old.count came self.new.bytes.now ×
            (self.new.count ≡ self.old.count - at + came)) (λ _. ReadAfter self.old.bytes.now at self.old.count 0 self.new.bytes.now ×
            (self.new.count ≡ self.old.count - at)) }
    {
        let left = self.count - at;
        move_down(self.bytes, at, self.count);
        self.count = left;
        let came = read_some(from, &mut self.bytes[left..])?;
        self.count = left + came;
        Ok(came)
    }
}
