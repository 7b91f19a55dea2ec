// The next sheet of a bundle, as the part of the caller's bytes that holds it.
ghost use Rattle.sheet.specs.Bundle.{NextSheet};

use crate::field::four;

// The empty part is the bundle's own front, since NextSheet says where it stands.
pub fn next_sheet(bundle: &[u8]) -> &[u8]
    ensures { NextSheet bundle.entry result }
{
    if bundle.len() < 4 {
        return &bundle[..0];
    }
    let whole = 4 + four(bundle, 0);
    if bundle.len() < whole {
        return &bundle[..0];
    }
    &bundle[..whole]
}
