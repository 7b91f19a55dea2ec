// A fault of a sheet.
ghost use Rattle.std.specs.Prelude.{◌≡◌};
ghost use Rattle.sheet.specs.Read.{fault};

// The number of the table, and the byte at which the fault starts. The rules and their table, `First` and the C side all speak of the number,
// so it stays one.
#[derive(Clone, Copy, Debug, PartialEq, Eq)]
pub struct Fault {
    pub number: u32,
    pub place: usize,
}

impl Fault {
    pub fn new(number: u32, place: usize) -> Fault
        ensures { result ≡ fault number place }
    {
        Fault { number, place }
    }
}
