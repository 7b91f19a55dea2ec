// The program: a bundle from standard input into an empty store, and a line for each of its sheets.
#![tactic(auto)]

ghost use Rattle.std.specs.Prelude.{◌≡◌, length};
ghost use Rattle.listing.specs.Prints.{most_text};

use listing::print;
use standard::{Failed, Streams, read_all, streams_of, write};

// One byte more than a bundle may have is read, so that a longer one shows. A read that fails prints no text: a bundle that was cut would look
// whole. The text is written at once: what reaches standard output is a front part of it, whatever fails.
// Asks: room for that byte too, and for the longest text.
fn answer(streams: Streams, bytes: &mut [u8], out: &mut [u8]) -> Result<(), Failed>
    requires { (length bytes.old ≡ 32769) × (length out.old ≡ most_text) }
{
    let n = read_all(streams, bytes)?;
    let used = print(&bytes[..n], out);
    write(streams, Ok(()), &out[..used])
}

fn main(rt: HostRuntime) {
    let mut bytes = [0u8; 32769];
    let mut out = [0u8; 73739];
    // What fails has said so itself.
    let _ = answer(streams_of(&rt), &mut bytes, &mut out);
}
