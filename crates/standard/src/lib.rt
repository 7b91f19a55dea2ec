// Standard input and output. What cannot be read or written is said by a line on standard error.
// No contract can say what a read brings or a write shows. What these say is that a failure is never forgotten, and that what came is a
// part of the bytes lent. A write takes what the writes before it came to: after one that failed none is tried, and none is told as fine.
#![tactic(auto)]

ghost use Rattle.std.specs.Prelude.{◌≡◌, ◌+◌, ◌≤◌, ◌↔◌, length, IsOk, MatchResult};
ghost use Rattle.standard.specs.declared.Failed.TheVariants.{Read};

use std::io::{Read, Stderr, Stdin, Stdout};

// The streams that a program is given as it starts. None of them keeps bytes back.
#[derive(Clone, Copy)]
pub struct Streams {
    pub input: Stdin,
    pub output: Stdout,
    pub errors: Stderr,
}

// A read or a write failed, and standard error has its line. Of a write a front part of the bytes may have been written.
#[derive(Clone, Copy)]
pub enum Failed {
    Read,
    Write,
}

// A read failed after so many bytes that came, and standard error has its line.
#[derive(Clone, Copy)]
pub struct ReadFailed {
    pub bytes: usize,
}

// For a caller that has no use for a part.
impl From<ReadFailed> for Failed {
    fn from(_: ReadFailed) -> Failed
        ensures { result ≡ Read }
    {
        Failed::Read
    }
}

// Those of the process.
pub fn streams_of(rt: &HostRuntime) -> Streams {
    Streams {
        input: rt.stdin(),
        output: rt.stdout(),
        errors: rt.stderr(),
    }
}

// What a write came to; its failure is said here.
fn told(to: Streams, wrote: std::io::Result<()>) -> Result<(), Failed>
    ensures { IsOk result ↔ IsOk wrote }
{
    if wrote.is_ok() {
        return Ok(());
    }
    let _ = to
        .errors
        .write_all(b"standard output could not be written\n");
    Err(Failed::Write)
}

// The bytes, unless a write before has failed; and whether every write so far was fine.
pub fn write(to: Streams, before: Result<(), Failed>, bytes: &[u8]) -> Result<(), Failed>
    ensures { IsOk result → IsOk before }
{
    before?;
    told(to, to.output.write_all(bytes))
}

// A number in decimal, as `write` does.
pub fn write_number(to: Streams, before: Result<(), Failed>, n: u64) -> Result<(), Failed>
    ensures { IsOk result → IsOk before }
{
    let mut digits = [0u8; 20];
    let k = io::decimal(n, &mut digits);
    write(to, before, &digits[..k])
}

// One read into what is lent. No byte comes at the end of the input, and where the read fails.
pub fn read_some(from: Streams, part: &mut [u8]) -> Result<usize, ReadFailed>
    ensures { MatchResult result (λ bytes. bytes ≤ length part.new) (λ failed. failed.bytes ≡ 0) }
{
    let mut input = from.input;
    let Ok(bytes) = input.read(part) else {
        let _ = from.errors.write_all(b"standard input could not be read\n");
        return Err(ReadFailed { bytes: 0 });
    };
    Ok(bytes)
}

// The same from a place on. Where the read fails, the bytes before the place have come.
// Asks: the place is among the bytes lent.
fn read_at(from: Streams, bytes: &mut [u8], at: usize) -> Result<usize, ReadFailed>
    requires { at ≤ length bytes.old }
    ensures { MatchResult result (λ came. at + came ≤ length bytes.new) (λ failed. failed.bytes ≡ at) }
{
    let Ok(came) = read_some(from, &mut bytes[at..]) else {
        return Err(ReadFailed { bytes: at });
    };
    Ok(came)
}

// Until the bytes are full, the input ends or a read fails.
pub fn read_all(from: Streams, bytes: &mut [u8]) -> Result<usize, ReadFailed>
    ensures { MatchResult result (λ came. came ≤ length bytes.new) (λ failed. failed.bytes ≤ length bytes.new) }
{
    let mut n = 0;
    // A read brings as many bytes as it will.
    while n < bytes.len() {
        let came = read_at(from, bytes, n)?;
        if came == 0 {
            return Ok(n);
        }
        n += came;
    }
    Ok(n)
}
