// Text and numbers for standard output. Bytes wait at the front of `out` and are written when it is full: a write is dear. After a write that
// fails nothing more is written.
// No contract can say what a write shows, so these say only that there is room for a byte again, which is the printer's own fact, and that a
// failure is not forgotten: each function tells what the writes so far came to, and once one has failed it stays so. `numbers` and `list` print
// by a `show` that may promise nothing: they are fine only where every write so far was. Tests compare what is printed.
#![tactic(auto)]

ghost use Rattle.std.specs.Prelude.{◌≡◌, ◌<◌, length, nat_abs, IsOk};

use standard::{Failed, Streams, write};

// Where the bytes go that wait, how many wait, and what the writes so far came to. There is always room for a byte more.
#[derive(Drop)]
pub struct Printer<'a> {
    to: Streams,
    out: &'a mut [u8],
    used: usize,
    so_far: Result<(), Failed>,
    ghost room: { used < length out.now },
}

// How a number is printed. Whoever implements it need promise nothing.
pub trait Shown {
    fn show(&self, printer: &mut Printer) -> Result<(), Failed>;
}

// The same, and it tells what the writes so far came to.
pub trait Told {
    fn tell(&self, printer: &mut Printer) -> Result<(), Failed>
        ensures told { result ≡ printer.new.so_far }
        ensures since { IsOk printer.new.so_far → IsOk printer.old.so_far };
}

// In decimal.
impl Told for u32 {
    fn tell(&self, printer: &mut Printer) -> Result<(), Failed> {
        printer.number(u64::from(*self))
    }
}

// In decimal, a negative number with a `-` before it.
impl Told for i32 {
    fn tell(&self, printer: &mut Printer) -> Result<(), Failed> {
        if *self < 0 {
            printer.put(b'-')?;
        }
        printer.number(size(*self))
    }
}

impl Shown for u32 {
    fn show(&self, printer: &mut Printer) -> Result<(), Failed>
        ensures told { result ≡ printer.new.so_far }
        ensures since { IsOk printer.new.so_far → IsOk printer.old.so_far }
    {
        self.tell(printer)
    }
}

impl Shown for i32 {
    fn show(&self, printer: &mut Printer) -> Result<(), Failed>
        ensures told { result ≡ printer.new.so_far }
        ensures since { IsOk printer.new.so_far → IsOk printer.old.so_far }
    {
        self.tell(printer)
    }
}

// How far a number is from 0: in 64 bits, since -2147483648 is further than any number of 32 bits with a sign.
fn size(n: i32) -> u64
    ensures { result ≡ nat_abs n }
{
    if n < 0 {
        return ((-1 - n) as u64) + 1;
    }
    n as u64
}

impl<'a> Printer<'a> {
    // Nothing waits at first, and no write has failed.
    // Asks: there is room for a byte.
    pub fn new(to: Streams, out: &'a mut [u8]) -> Printer<'a>
        requires { 0 < length out.old }
        ensures used_value { result.used ≡ 0 }
        ensures so_far_value { IsOk result.so_far }
    {
        Printer {
            to,
            out,
            used: 0,
            so_far: Ok(()),
        }
    }

    // What waited was tried: nothing waits any more, and a failure goes on.
    fn emptied(&mut self, wrote: Result<(), Failed>) -> Result<(), Failed>
        ensures used_value { self.new.used ≡ 0 }
        ensures kept { self.new.so_far ≡ wrote }
        ensures passed_on { result ≡ wrote }
    {
        self.used = 0;
        self.so_far = wrote;
        wrote
    }

    // Tells what the writes so far came to, as every function here but `numbers` and `list`.
    pub fn put(&mut self, b: u8) -> Result<(), Failed>
        ensures told { result ≡ self.new.so_far }
        ensures since { IsOk self.new.so_far → IsOk self.old.so_far }
    {
        self.out[self.used] = b;
        if self.used + 1 < self.out.len() {
            self.used += 1;
            return self.so_far;
        }
        let wrote = write(self.to, self.so_far, self.out);
        self.emptied(wrote)
    }

    pub fn text(&mut self, text: &[u8]) -> Result<(), Failed>
        ensures told { result ≡ self.new.so_far }
        ensures since { IsOk self.new.so_far → IsOk self.old.so_far }
    {
        // A failure is kept and told at the end: no byte is written after it.
        for b in text {
            let _ = self.put(*b);
        }
        self.so_far
    }

    // In decimal.
    pub fn number(&mut self, n: u64) -> Result<(), Failed>
        ensures told { result ≡ self.new.so_far }
        ensures since { IsOk self.new.so_far → IsOk self.old.so_far }
    {
        let mut digits = [0u8; 20];
        let k = io::decimal(n, &mut digits);
        self.text(&digits[..k])
    }

    // Each number after a space. A failure that `show` alone tells of is handed on, and what comes later is printed.
    pub fn numbers<N: Shown>(&mut self, numbers: &[N]) -> Result<(), Failed>
        ensures fine { IsOk result → IsOk self.new.so_far }
        ensures since { IsOk self.new.so_far → IsOk self.old.so_far }
    {
        for n in numbers {
            self.put(b' ')?;
            n.show(self)?;
        }
        self.so_far
    }

    // The numbers with one space between them; of no numbers nothing.
    pub fn list<N: Shown>(&mut self, numbers: &[N]) -> Result<(), Failed>
        ensures fine { IsOk result → IsOk self.new.so_far }
        ensures since { IsOk self.new.so_far → IsOk self.old.so_far }
    {
        self.so_far?;
        let [first, rest @ ..] = numbers else {
            return Ok(());
        };
        first.show(self)?;
        self.numbers(rest)
    }

    // As `numbers`, and tells what the writes so far came to.
    pub fn tell_numbers<N: Told>(&mut self, numbers: &[N]) -> Result<(), Failed>
        ensures told { result ≡ self.new.so_far }
        ensures since { IsOk self.new.so_far → IsOk self.old.so_far }
    {
        for n in numbers {
            self.put(b' ')?;
            n.tell(self)?;
        }
        self.so_far
    }

    // As `list`, and tells what the writes so far came to.
    pub fn tell_list<N: Told>(&mut self, numbers: &[N]) -> Result<(), Failed>
        ensures told { result ≡ self.new.so_far }
        ensures since { IsOk self.new.so_far → IsOk self.old.so_far }
    {
        let [first, rest @ ..] = numbers else {
            return self.so_far;
        };
        first.tell(self)?;
        self.tell_numbers(rest)
    }

    // Two bytes. Where both fit, they are put at once: what waits is counted in memory, and one count for two is faster.
    fn pair(&mut self, first: u8, second: u8) -> Result<(), Failed>
        ensures told { result ≡ self.new.so_far }
        ensures since { IsOk self.new.so_far → IsOk self.old.so_far }
    {
        let at = self.used;
        if at + 2 < self.out.len() {
            self.out[at] = first;
            self.out[at + 1] = second;
            self.used = at + 2;
            return self.so_far;
        }
        let _ = self.put(first);
        self.put(second)
    }

    // Bytes in lower-case hex, with nothing between them.
    pub fn hex(&mut self, bytes: &[u8]) -> Result<(), Failed>
        ensures told { result ≡ self.new.so_far }
        ensures since { IsOk self.new.so_far → IsOk self.old.so_far }
    {
        let digits = b"0123456789abcdef";
        // A failure is kept and told at the end.
        for b in bytes {
            let _ = self.pair(digits[(*b / 16) as usize], digits[(*b % 16) as usize]);
        }
        self.so_far
    }

    // All that waits is written, and nothing waits any more.
    pub fn flush(&mut self) -> Result<(), Failed>
        ensures used_value { self.new.used ≡ 0 }
        ensures told { result ≡ self.new.so_far }
        ensures since { IsOk self.new.so_far → IsOk self.old.so_far }
    {
        let wrote = write(self.to, self.so_far, &self.out[..self.used]);
        self.emptied(wrote)
    }
}
