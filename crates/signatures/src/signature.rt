// Signatures: label, input count, and the classes of the inputs.
ghost use Rattle.std.specs.Prelude.{◌≡◌, ◌<◌, length};
ghost use Rattle.rules.specs.Answers.{Says};
ghost use Rattle.rounds.specs.Classes.{class_of};
ghost use Rattle.rounds.specs.Buckets.{packed, bucket_of};
ghost use Rattle.rows.specs.Joined.{source_of, joined};
ghost use Rattle.rows.specs.View.{view_rows};
ghost use Rattle.signatures.specs.Inside.{InputsInside, Sighted};
ghost use Rattle.signatures.specs.Signed.{class_at, signature_in};

use rows::entry;
use rows::viewing::View;
use store::row::ROOM;

// Buckets: the links' entries behind those of the rows.
pub const BUCKETS: usize = 2048;

// A row's signature by value. The classes of the four inputs stand in one number, 16 bits each, so that they are compared at once;
// those past the input count are zero.
#[derive(Clone, Copy)]
pub struct Signature {
    pub label: u32,
    pub count: u32,
    pub classes: usize,
}

// The classes of all four inputs: an unused one is 0, and the class of row 0 is 0. So there is no count to look at, which is quicker.
fn classes_of(cls: &[u16], inputs: [u32; ROOM]) -> usize
    requires { InputsInside cls.now inputs }
    ensures { result ≡ packed (class_at cls.now inputs) 4 }
{
    let mut found = 0;
    for j in 0..ROOM {
        found = found * 65536 + entry(cls, inputs[j] as usize);
    }
    found
}

// Asks: a view with classes of its rows, and a row of it. A round looks at the rows below the view's count.
#[inline(always)]
pub fn signature_of(view: &View, cls: &[u16], u: usize) -> Signature
    requires sighted { Sighted (source_of view.now) view.now.table.now cls.now }
    requires u_bound { u < view_rows (source_of view.now) view.now.table.now }
    ensures { result ≡ signature_in (joined (source_of view.now)) (class_of cls.now) u }
{
    let row = view.read(u);
    let inputs = row.inputs;
    Signature {
        label: row.label,
        count: row.count,
        classes: classes_of(cls, inputs),
    }
}

// Written out and not derived: the must-fail edits turn the test of one field each.
pub fn same_signature(a: Signature, b: Signature) -> bool
    ensures { Says (a ≡ b) result }
{
    if a.label != b.label {
        return false;
    }
    if a.count != b.count {
        return false;
    }
    if a.classes != b.classes {
        return false;
    }
    true
}

// The bucket in which a signature's chain begins: a number below 2,048 that spreads signatures well. No sum here reaches 64 bits.
pub fn bucket_of(s: Signature) -> usize
    ensures { (result ≡ bucket_of s.label s.count s.classes) × (result < 2048) }
{
    let x = s.label as usize * 415926535 + s.count as usize * 271828183;
    let y = s.classes % 4294967296 * 314159265 + s.classes / 4294967296 * 141421357;
    (x + y) / 262144 % 2048
}
