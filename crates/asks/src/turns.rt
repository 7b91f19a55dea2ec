// The requests that stand whole in some bytes, answered one after another.
ghost use Rattle.std.specs.Prelude.{◌≡◌, ◌≤◌, length, drop, IfOk};
ghost use Rattle.asks.specs.Turns.{Answered};

use printing::Printer;
use requests::argument::Stop;
use requests::request::request;
use saying::answer::answer;
use saying::memory::Memory;
use standard::Failed;

// The place of the first request that cannot be answered, and why.
#[derive(Clone, Copy)]
pub struct Done {
    pub at: usize,
    pub stop: Stop,
}

// Asks: the place is within the bytes. The turns never go past the end.
fn rest_at(bytes: &[u8], at: usize) -> &[u8]
    requires { at ≤ length bytes.now }
    ensures { result.now ≡ drop at bytes.now }
{
    &bytes[at..]
}

pub fn answer_all(bytes: &[u8], memory: &mut Memory, printer: &mut Printer) -> Result<Done, Failed>
    ensures { IfOk result (λ done. Answered bytes.now done.at done.stop) }
{
    let mut at = 0;
    // The next request begins where this one ends.
    loop {
        let ask = rest_at(bytes, at);
        let last = match request(ask) {
            Ok(last) => last,
            Err(stop) => return Ok(Done { at, stop }),
        };
        answer(ask, memory, printer)?;
        at += last.end;
    }
}
