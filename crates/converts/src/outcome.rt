// What converting an old sheet answers.
ghost use Rattle.std.specs.Prelude.{◌≡◌};

// The number of the table, the bytes written, and the byte of the sheet at which the fault starts (0 unless the number is 3 to 6).
// It stays a struct: ConvertSays and the theorems speak of all parts at once, and C gets them all.
#[derive(Clone, Copy)]
pub struct Converted {
    pub number: u32,
    pub bytes: usize,
    pub place: usize,
}

impl Converted {
    // Beside a refusal no byte is written.
    pub fn refused(number: u32, place: usize) -> Converted
        ensures { result ≡ record { number = number; bytes = 0; place = place } }
    {
        Converted {
            number,
            bytes: 0,
            place,
        }
    }
}
