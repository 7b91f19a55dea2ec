// A reader over a bundle: it keeps the bundle and how far it has read.
// Functions on a slice and a number do the work. The struct is thin over them; callers ask the plain functions above it.
#![tactic(auto)]

ghost use Rattle.std.specs.Prelude.{◌≡◌, ◌+◌, ◌≤◌, length};
ghost use Rattle.bundle.specs.Shown.{Shows, place_after};
ghost use Rattle.bundle.specs.Readers.{set_at, started, moved_along};

use sheet::bundle::next_sheet;

// The part that holds the sheet at a place, or the empty part. Past the bundle's end that is the empty part at its end.
pub fn shown_at(bundle: &[u8], at: usize) -> &[u8]
    ensures { Shows bundle.entry at result }
{
    let end = bundle.len();
    if end < at {
        return &bundle[end..];
    }
    let rest = &bundle[at..];
    next_sheet(rest)
}

// The place so many bytes further.
// Asks: that place is within the bundle. What is shown ends within it.
fn further(bundle: &[u8], at: usize, step: usize) -> usize
    requires { at + step ≤ length bundle.now }
    ensures { result ≡ at + step }
{
    at + step
}

// The place after moving past what is shown. On the empty part, past the end too, it is the same place.
pub fn place_after(bundle: &[u8], at: usize) -> usize
    ensures { result ≡ place_after bundle.now at }
{
    if bundle.len() < at {
        return at;
    }
    let part = shown_at(bundle, at);
    further(bundle, at, part.len())
}

#[derive(Clone, Copy)]
pub struct Reader<'a> {
    pub bundle: &'a [u8],
    pub at: usize,
}

// Where a new reader stands.
fn start() -> usize
    ensures { result ≡ 0 }
{
    0
}

// A reader at the bundle's start.
pub fn new<'a>(bundle: &'a [u8]) -> Reader<'a>
    ensures { result ≡ started bundle.entry }
{
    Reader {
        bundle,
        at: start(),
    }
}

// A reader set at any place.
pub fn set_at<'a>(bundle: &'a [u8], at: usize) -> Reader<'a>
    ensures { result ≡ set_at bundle.entry at }
{
    Reader { bundle, at }
}

// The part that holds the next sheet.
pub fn shown<'a>(r: Reader<'a>) -> &'a [u8]
    ensures { Shows r.entry.bundle r.entry.at result }
{
    shown_at(r.bundle, r.at)
}

// The reader past it.
pub fn moved<'a>(r: Reader<'a>) -> Reader<'a>
    ensures { result ≡ moved_along r.entry }
{
    Reader {
        bundle: r.bundle,
        at: place_after(r.bundle, r.at),
    }
}

// What a reader set at a place shows.
pub fn reader_shows(bundle: &[u8], at: usize) -> &[u8]
    ensures { Shows bundle.entry at result }
{
    shown(set_at(bundle, at))
}

// Where a reader set at a place stands once it has moved.
pub fn reader_moves(bundle: &[u8], at: usize) -> usize
    ensures { result ≡ place_after bundle.now at }
{
    moved(set_at(bundle, at)).at
}
