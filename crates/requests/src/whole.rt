// The arguments of a request that is known to be whole: their runs are there.
ghost use Rattle.requests.specs.Requests.{Asked};
ghost use Rattle.requests.specs.Runs.{StoreThere, OneRunThere, InsertThere, KeyThere, CompareThere, PartThere, ReaderThere, MendThere, RunThere, ConvertThere};

use crate::argument::Argument;
use crate::asked::{
    CompareAsked, ConvertAsked, InsertAsked, KeyAsked, MendAsked, PartAsked, ReaderAsked, RunAsked,
    bytes_asked, compare_asked, convert_asked, insert_asked, key_asked, mend_asked, part_asked,
    reader_asked, run_asked, store_asked,
};

// Asks: a whole request of this kind.
pub fn check_whole(ask: &[u8]) -> Argument
    requires { Asked ask.now 1 }
    ensures { StoreThere ask.now result }
{
    store_asked(ask).unwrap()
}

// Asks: a whole request of this kind.
pub fn insert_whole(ask: &[u8]) -> InsertAsked
    requires { Asked ask.now 2 }
    ensures { InsertThere ask.now result }
{
    let read = insert_asked(ask);
    InsertAsked {
        store: read.store.unwrap(),
        sheet: read.sheet.unwrap(),
        list: read.list.unwrap(),
    }
}

// Asks: a whole request of this kind.
pub fn key_whole(ask: &[u8]) -> KeyAsked
    requires { Asked ask.now 3 }
    ensures { KeyThere ask.now result }
{
    let read = key_asked(ask);
    KeyAsked {
        store: read.store.unwrap(),
        row: read.row.unwrap(),
        buffer: read.buffer.unwrap(),
    }
}

// Asks: a whole request of this kind.
pub fn key_test_whole(ask: &[u8]) -> Argument
    requires { Asked ask.now 4 }
    ensures { OneRunThere ask.now result }
{
    bytes_asked(ask).unwrap()
}

// Asks: a whole request of this kind.
pub fn compare_whole(ask: &[u8]) -> CompareAsked
    requires { Asked ask.now 5 }
    ensures { CompareThere ask.now result }
{
    let read = compare_asked(ask);
    CompareAsked {
        store: read.store.unwrap(),
        row: read.row.unwrap(),
        second: read.second.unwrap(),
        other: read.other.unwrap(),
    }
}

// Asks: a whole request of this kind.
pub fn part_whole(ask: &[u8]) -> PartAsked
    requires { Asked ask.now 6 }
    ensures { PartThere ask.now result }
{
    let read = part_asked(ask);
    PartAsked {
        store: read.store.unwrap(),
        whole: read.whole.unwrap(),
        part: read.part.unwrap(),
    }
}

// Asks: a whole request of this kind.
pub fn next_whole(ask: &[u8]) -> Argument
    requires { Asked ask.now 7 }
    ensures { OneRunThere ask.now result }
{
    bytes_asked(ask).unwrap()
}

// Asks: a whole request of this kind.
pub fn reader_whole(ask: &[u8]) -> ReaderAsked
    requires { Asked ask.now 8 }
    ensures { ReaderThere ask.now result }
{
    let read = reader_asked(ask);
    ReaderAsked {
        bundle: read.bundle.unwrap(),
        place: read.place.unwrap(),
        steps: read.steps.unwrap(),
    }
}

// Asks: a whole request of this kind.
pub fn sheet_whole(ask: &[u8]) -> Argument
    requires { Asked ask.now 9 }
    ensures { OneRunThere ask.now result }
{
    bytes_asked(ask).unwrap()
}

// Asks: a whole request of this kind.
pub fn strict_whole(ask: &[u8]) -> InsertAsked
    requires { Asked ask.now 10 }
    ensures { InsertThere ask.now result }
{
    let read = insert_asked(ask);
    InsertAsked {
        store: read.store.unwrap(),
        sheet: read.sheet.unwrap(),
        list: read.list.unwrap(),
    }
}

// Asks: a whole request of this kind.
pub fn mend_whole(ask: &[u8]) -> MendAsked
    requires { Asked ask.now 11 }
    ensures { MendThere ask.now result }
{
    let read = mend_asked(ask);
    MendAsked {
        store: read.store.unwrap(),
        list: read.list.unwrap(),
    }
}

// Asks: a whole request of this kind.
pub fn run_whole(ask: &[u8]) -> RunAsked
    requires { Asked ask.now 12 }
    ensures { RunThere ask.now result }
{
    let read = run_asked(ask);
    RunAsked {
        store: read.store.unwrap(),
        row: read.row.unwrap(),
        channels: read.channels.unwrap(),
        values: read.values.unwrap(),
        output: read.output.unwrap(),
    }
}

// Asks: a whole request of this kind.
pub fn convert_whole(ask: &[u8]) -> ConvertAsked
    requires { Asked ask.now 13 }
    ensures { ConvertThere ask.now result }
{
    let read = convert_asked(ask);
    ConvertAsked {
        store: read.store.unwrap(),
        sheet: read.sheet.unwrap(),
        buffer: read.buffer.unwrap(),
    }
}
