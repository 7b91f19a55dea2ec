// Rows named between rounds, by their signatures.
ghost use Rattle.std.specs.Prelude.{◌≡◌, ◌+◌, ◌≤◌, ◌<◌, length, set};
ghost use Rattle.rules.specs.Lists.{widest};
ghost use Rattle.rules.specs.Answers.{Says};
ghost use Rattle.rounds.specs.Classes.{class_of};
ghost use Rattle.rounds.specs.Buckets.{packed};
ghost use Rattle.rows.specs.Joined.{source_of, joined};
ghost use Rattle.rows.specs.View.{Viewed, view_rows, Entered};
ghost use Rattle.naming.specs.Entries.{entry_at, EntriesInside};
ghost use Rattle.naming.specs.InNaming.{InNaming, InputsNamed, Nameable, Probing, SlotSays, NameSays};
ghost use Rattle.signatures.specs.Signed.{signature_in};

use rows::viewing::View;
use rows::{entry, put_entry};
use signatures::signature::{BUCKETS, Signature, bucket_of, same_signature};
use store::row::ROOM;

// The entry of input j, or another value where the row has no such input.
fn at_input(cls: &[u16], inputs: [u32; ROOM], count: usize, past: usize, j: usize) -> usize
    requires { EntriesInside cls.now inputs count × (j < widest) × (past < 65536) }
    ensures { (result ≡ entry_at cls.now inputs count past j) × (result < 65536) }
{
    if j < count {
        return entry(cls, inputs[j] as usize);
    }
    past
}

// Whether all inputs of row u are named.
// Asks: a view, a row of it, and a mark for each row.
pub fn ready(view: &View, marks: &[u16], u: usize) -> bool
    requires { Viewed (source_of view.now) view.now.table.now ×
        Entered (source_of view.now) view.now.table.now marks.now u }
    ensures { Says (InputsNamed (joined (source_of view.now)) marks.now u) result }
{
    let row = view.read(u);
    let inputs = row.inputs;
    let count = row.count as usize;
    for j in 0..ROOM {
        if at_input(marks, inputs, count, 1, j) != 1 {
            return false;
        }
    }
    true
}

// The names of all inputs, zero past them: row 0 may have another name than 0.
fn names_of(cls: &[u16], inputs: [u32; ROOM], count: usize) -> usize
    requires { EntriesInside cls.now inputs count }
    ensures { result ≡ packed (entry_at cls.now inputs count 0) 4 }
{
    let mut found = 0;
    for j in 0..ROOM {
        found = found * 65536 + at_input(cls, inputs, count, 0, j);
    }
    found
}

fn name_signature(view: &View, cls: &[u16], u: usize) -> Signature
    requires { Viewed (source_of view.now) view.now.table.now ×
        Entered (source_of view.now) view.now.table.now cls.now u }
    ensures { result ≡ signature_in (joined (source_of view.now)) (class_of cls.now) u }
{
    let row = view.read(u);
    let inputs = row.inputs;
    Signature {
        label: row.label,
        count: row.count,
        classes: names_of(cls, inputs, row.count as usize),
    }
}

// What a row meets that looks for its signature: a named row that has it, an empty slot, or neither. Three cases, each with its own next step:
// an Option or a Result has two.
#[derive(Clone, Copy)]
enum Slot {
    Same(usize),
    Free(usize),
    Full,
}

// The marks say which rows are named; they are not read.
fn probe(
    view: &View,
    cls: &[u16],
    marks: &[u16],
    links: &[u16],
    u: usize,
    s: Signature,
    b: usize,
) -> Slot
    requires in_naming { InNaming (source_of view.now) view.now.table.now cls.now marks.now links.now }
    requires u_bound { u < view_rows (source_of view.now) view.now.table.now }
    requires probing { Probing (joined (source_of view.now)) cls.now u s b }
    ensures { SlotSays (joined (source_of view.now)) cls.now links.now u result }
{
    for k in 0..64 {
        let p = (b + k) % 2048;
        let h = entry(links, BUCKETS + p);
        if h == 0 {
            return Slot::Free(p);
        }
        if same_signature(s, name_signature(view, cls, h - 1)) {
            return Slot::Same(h - 1);
        }
    }
    Slot::Full
}

fn find_slot(view: &View, cls: &[u16], marks: &[u16], links: &[u16], u: usize) -> Slot
    requires in_naming { InNaming (source_of view.now) view.now.table.now cls.now marks.now links.now }
    requires u_bound { u < view_rows (source_of view.now) view.now.table.now }
    ensures { SlotSays (joined (source_of view.now)) cls.now links.now u result }
{
    let s = name_signature(view, cls, u);
    let b = bucket_of(s);
    probe(view, cls, marks, links, u, s, b)
}

fn give(cls: &mut [u16], marks: &mut [u16], u: usize, h: usize)
    requires { (u < length cls.old) × (u < length marks.old) × (h < 65536) }
    ensures { (cls.new ≡ set cls.old u h) × (marks.new ≡ set marks.old u 1) }
{
    put_entry(cls, u, h);
    put_entry(marks, u, 1);
}

// A slot's entry is a row and one more.
fn fill(links: &mut [u16], p: usize, u: usize)
    requires { (length links.old ≡ 4096) × (p < 2048) × (u < 2048) }
    ensures { links.new ≡ set links.old (2048 + p) (u + 1) }
{
    put_entry(links, BUCKETS + p, u + 1);
}

// Row u named: by the named row that has its signature, or as such a row. Where there is no room all stands.
// Asks: a naming, and a row without a name whose inputs are named.
pub fn name(view: &View, cls: &mut [u16], marks: &mut [u16], links: &mut [u16], u: usize) -> bool
    requires in_naming { InNaming (source_of view.now) view.now.table.now cls.old marks.old links.old }
    requires nameable { Nameable (source_of view.now) view.now.table.now marks.old u }
    ensures { NameSays (source_of view.now) view.now.table.now cls.old
        marks.old links.old cls.new marks.new links.new u result }
{
    match find_slot(view, cls, marks, links, u) {
        Slot::Same(h) => {
            give(cls, marks, u, h);
            true
        }
        Slot::Free(p) => {
            give(cls, marks, u, u);
            fill(links, p, u);
            true
        }
        Slot::Full => false,
    }
}
