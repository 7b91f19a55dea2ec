// The operations for C: each has the contract of the operation it calls. A run comes as a pointer and a length; the number is
// returned, and each other value goes through a pointer. include/chain_register.h is the C side.
#![tactic(auto)]

ghost use Rattle.std.specs.Prelude.{◌≡◌};
ghost use Rattle.rules.specs.Refusals.{First};
ghost use Rattle.trees.specs.Agreement.{SameTree};
ghost use Rattle.trees.specs.Paths.{Leads};
ghost use Rattle.store.specs.Layout.{store_graph, room};
ghost use Rattle.sheet.specs.Bundle.{next_length};
ghost use Rattle.sheet.specs.Read.{read_sheet, number_of, fault_of};
ghost use Rattle.checking.specs.Check.{check_refusals};
ghost use Rattle.inserting.specs.Insert.{InsertSays};
ghost use Rattle.strict.specs.Strict.{StrictSays};
ghost use Rattle.parts.specs.Parts.{part_refusals};
ghost use Rattle.comparing.specs.Refused.{compare_refusals};
ghost use Rattle.keys.specs.Sheets.{KeySays};
ghost use Rattle.converts.specs.Convert.{ConvertSays};
ghost use Rattle.mender.specs.Says.{MendSays};
ghost use Rattle.running.specs.Run.{RunSays};
ghost use Rattle.keying.specs.Written.{WriteSays};
ghost use Rattle.face.specs.Answers.{word_of, AnswerWritten};

use register::{
    check, compare, convert, insert, insert_strict, is_key, mend, part_of, read_sheet, run,
    write_key,
};
use sheet::bundle::next_sheet;

// A yes or no in C's words: a lent place may hold any word, but only two bytes are a bool.
fn word(yes: bool) -> u32
    ensures { result ≡ word_of yes }
{
    yes as u32
}

#[unsafe(no_mangle)]
pub extern "C" fn chain_check(store: &[u32]) -> u32
    ensures { First (check_refusals store.now) result }
{
    check(store)
}

// The rows added go through `added`, the byte at which a fault of the sheet starts through `place`.
#[unsafe(no_mangle)]
pub extern "C" fn chain_insert(
    store: &mut [u32],
    sheet: &[u8],
    answers: &mut [u32],
    added: &mut u32,
    place: &mut usize,
) -> u32
    ensures { InsertSays store.old sheet.now answers.old
        (record { number = result; added = added.new; place = place.new }) store.new answers.new }
{
    let done = insert(store, sheet, answers);
    *added = done.added;
    *place = done.place;
    done.number
}

// As chain_insert, for sheets of catalogue operations in which every loop passes a hold.
#[unsafe(no_mangle)]
pub extern "C" fn chain_insert_strict(
    store: &mut [u32],
    sheet: &[u8],
    answers: &mut [u32],
    added: &mut u32,
    place: &mut usize,
) -> u32
    ensures { StrictSays store.old sheet.now answers.old
        (record { number = result; added = added.new; place = place.new }) store.new answers.new }
{
    let judged = insert_strict(store, sheet, answers);
    *added = judged.added;
    *place = judged.place;
    judged.number
}

// The byte at which the fault starts goes through `place`.
#[unsafe(no_mangle)]
pub extern "C" fn chain_read_sheet(sheet: &[u8], place: &mut usize) -> u32
    ensures { (result ≡ number_of (read_sheet sheet.now)) × (place.new ≡ fault_of (read_sheet sheet.now)) }
{
    match read_sheet(sheet) {
        Ok(_) => {
            *place = 0;
            0
        }
        Err(fault) => {
            *place = fault.place;
            fault.number
        }
    }
}

// The bytes written go through `written`.
#[unsafe(no_mangle)]
pub extern "C" fn chain_write_key(
    store: &[u32],
    row: u32,
    key: &mut [u8],
    written: &mut usize,
) -> u32
    ensures { WriteSays store.now row key.old (record { number = result; bytes = written.new }) key.new }
{
    let wrote = write_key(store, row, key);
    *written = wrote.bytes;
    wrote.number
}

#[unsafe(no_mangle)]
pub extern "C" fn chain_is_key(bytes: &[u8]) -> bool
    ensures { KeySays bytes.now result }
{
    is_key(bytes)
}

// 1 or 0 goes through `yes`: the rows have the same tree, or not.
#[unsafe(no_mangle)]
pub extern "C" fn chain_compare(
    first: &[u32],
    row: u32,
    second: &[u32],
    other: u32,
    yes: &mut u32,
) -> u32
    ensures { AnswerWritten (compare_refusals first.now row second.now other)
        (SameTree (store_graph room first.now) row (store_graph room second.now) other) result yes.new }
{
    let answer = compare(first, row, second, other);
    *yes = word(answer.yes);
    answer.number
}

// 1 or 0 goes through `yes`: some path leads from the whole to the part, or none.
#[unsafe(no_mangle)]
pub extern "C" fn chain_part_of(store: &[u32], part: u32, whole: u32, yes: &mut u32) -> u32
    ensures { AnswerWritten (part_refusals store.now part whole) (Leads (store_graph room store.now) whole part) result
        yes.new }
{
    let answer = part_of(store, part, whole);
    *yes = word(answer.yes);
    answer.number
}

// The length of the next sheet, which starts where the bundle starts; 0 where it is not all there.
#[unsafe(no_mangle)]
pub extern "C" fn chain_next_sheet(bundle: &[u8]) -> usize
    ensures { result ≡ next_length bundle.now }
{
    next_sheet(bundle).len()
}

// The four counts go through `dropped`, `wires`, `merged` and `cleared`.
#[unsafe(no_mangle)]
pub extern "C" fn chain_mend(
    store: &mut [u32],
    list: &mut [u32],
    dropped: &mut u32,
    wires: &mut u32,
    merged: &mut u32,
    cleared: &mut u32,
) -> u32
    ensures { MendSays room store.old list.old
        (record {
          number = result;
          dropped = dropped.new;
          wires = wires.new;
          merged = merged.new;
          cleared = cleared.new;
        })
        store.new list.new }
{
    let done = mend(store, list);
    *dropped = done.dropped;
    *wires = done.wires;
    *merged = done.merged;
    *cleared = done.cleared;
    done.number
}

// One output a tick goes to the front of `output`.
#[unsafe(no_mangle)]
pub extern "C" fn chain_run(
    store: &[u32],
    row: u32,
    channels: u32,
    values: &[i32],
    output: &mut [i32],
) -> u32
    ensures { RunSays store.now row channels values.now output.old result output.new }
{
    run(store, row, channels, values, output)
}

// The bytes written go through `written`, the byte at which a fault of the sheet starts through `place`.
#[unsafe(no_mangle)]
pub extern "C" fn chain_convert(
    store: &[u32],
    sheet: &[u8],
    out: &mut [u8],
    written: &mut usize,
    place: &mut usize,
) -> u32
    ensures { ConvertSays store.now sheet.now out.old
        (record { number = result; bytes = written.new; place = place.new }) out.new }
{
    let converted = convert(store, sheet, out);
    *written = converted.bytes;
    *place = converted.place;
    converted.number
}
