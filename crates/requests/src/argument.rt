// The arguments of a request, one after another, as places in its bytes. All numbers are big-endian.
ghost use Rattle.std.specs.Prelude.{◌≡◌, IfOk};
ghost use Rattle.requests.specs.Arguments.{Inside, Reads, number_after, body_after, words_after, bytes_after, steps_after, opening as the_opening};

use sheet::field::four;

// Entries that a word run and a byte run may have, and steps that a reader may be asked for.
pub const MOST_WORDS: usize = 8192;

pub const MOST_BYTES: usize = 65536;

pub const MOST_STEPS: usize = 65536;

// Why a request cannot be read: more bytes are needed; a run or the steps are too long; no such request.
#[derive(Clone, Copy, Debug, PartialEq, Eq)]
pub enum Stop {
    More,
    Long,
    What,
}

// Its first byte (of a run the one after the count), the number or the count of entries, and the first byte after it.
#[derive(Clone, Copy)]
pub struct Argument {
    pub at: usize,
    pub count: usize,
    pub end: usize,
}

// The request's own byte, before the first argument.
pub fn opening() -> Argument
    ensures { result ≡ the_opening }
{
    Argument {
        at: 0,
        count: 0,
        end: 1,
    }
}

// A number of four bytes after an argument. One that cannot be read passes on why.
// Asks: the argument before, if it is there, ends within the bytes, and its count has 32 bits. Every argument read is so.
pub fn number_after(ask: &[u8], before: Result<Argument, Stop>) -> Result<Argument, Stop>
    requires { IfOk before (Inside ask.now) }
    ensures { Reads ask.now (number_after ask.now before) result }
{
    let at = before?.end;
    if ask.len() - at < 4 {
        return Err(Stop::More);
    }
    let count = four(ask, at);
    Ok(Argument {
        at,
        count,
        end: at + 4,
    })
}

// The body of a run after its count: so many bytes, if the count is within the limit.
// Asks: the count ends within the bytes, and has 32 bits.
fn body_after(ask: &[u8], head: Argument, most: usize, size: usize) -> Result<Argument, Stop>
    requires { Inside ask.now head }
    ensures { Reads ask.now (body_after ask.now head most size) result }
{
    let count = head.count;
    if most < count {
        return Err(Stop::Long);
    }
    let at = head.end;
    if ask.len() - at < size {
        return Err(Stop::More);
    }
    Ok(Argument {
        at,
        count,
        end: at + size,
    })
}

// A word run after an argument.
// Asks: the argument before, if it is there, ends within the bytes, and its count has 32 bits. Every argument read is so.
pub fn words_after(ask: &[u8], before: Result<Argument, Stop>) -> Result<Argument, Stop>
    requires { IfOk before (Inside ask.now) }
    ensures { Reads ask.now (words_after ask.now before) result }
{
    let head = number_after(ask, before)?;
    body_after(ask, head, MOST_WORDS, 4 * head.count)
}

// A byte run after an argument.
// Asks: the argument before, if it is there, ends within the bytes, and its count has 32 bits. Every argument read is so.
pub fn bytes_after(ask: &[u8], before: Result<Argument, Stop>) -> Result<Argument, Stop>
    requires { IfOk before (Inside ask.now) }
    ensures { Reads ask.now (bytes_after ask.now before) result }
{
    let head = number_after(ask, before)?;
    body_after(ask, head, MOST_BYTES, head.count)
}

// A number of steps after an argument: no bytes follow it.
// Asks: the argument before, if it is there, ends within the bytes, and its count has 32 bits. Every argument read is so.
pub fn steps_after(ask: &[u8], before: Result<Argument, Stop>) -> Result<Argument, Stop>
    requires { IfOk before (Inside ask.now) }
    ensures { Reads ask.now (steps_after ask.now before) result }
{
    let head = number_after(ask, before)?;
    body_after(ask, head, MOST_STEPS, 0)
}
