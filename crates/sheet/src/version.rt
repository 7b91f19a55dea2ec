// A sheet's version gives the most inputs that a row may have.
ghost use Rattle.std.specs.Prelude.{◌≡◌};
ghost use Rattle.sheet.specs.Read.{limit_of};

// Nothing for a version that is not known.
pub fn limit_of(version: usize) -> Option<usize>
    ensures { result ≡ limit_of version }
{
    if version == 1 { Some(4) } else { None }
}
