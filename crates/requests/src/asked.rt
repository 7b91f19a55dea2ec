// The arguments of each kind of request, in their order. Each is there or says why not; those after one that cannot be read say the same.
ghost use Rattle.std.specs.Prelude.{◌<◌, length};
ghost use Rattle.requests.specs.Arguments.{Reads};
ghost use Rattle.requests.specs.Requests.{store_of, bytes_of, InsertRead, KeyRead, CompareRead, PartRead, ReaderRead, MendRead, RunRead, ConvertRead};

use crate::argument::{
    Argument, Stop, bytes_after, number_after, opening, steps_after, words_after,
};

// As they are read.

#[derive(Clone, Copy)]
pub struct InsertParts {
    pub store: Result<Argument, Stop>,
    pub sheet: Result<Argument, Stop>,
    pub list: Result<Argument, Stop>,
}

#[derive(Clone, Copy)]
pub struct KeyParts {
    pub store: Result<Argument, Stop>,
    pub row: Result<Argument, Stop>,
    pub buffer: Result<Argument, Stop>,
}

#[derive(Clone, Copy)]
pub struct CompareParts {
    pub store: Result<Argument, Stop>,
    pub row: Result<Argument, Stop>,
    pub second: Result<Argument, Stop>,
    pub other: Result<Argument, Stop>,
}

#[derive(Clone, Copy)]
pub struct PartParts {
    pub store: Result<Argument, Stop>,
    pub whole: Result<Argument, Stop>,
    pub part: Result<Argument, Stop>,
}

#[derive(Clone, Copy)]
pub struct ReaderParts {
    pub bundle: Result<Argument, Stop>,
    pub place: Result<Argument, Stop>,
    pub steps: Result<Argument, Stop>,
}

#[derive(Clone, Copy)]
pub struct MendParts {
    pub store: Result<Argument, Stop>,
    pub list: Result<Argument, Stop>,
}

#[derive(Clone, Copy)]
pub struct RunParts {
    pub store: Result<Argument, Stop>,
    pub row: Result<Argument, Stop>,
    pub channels: Result<Argument, Stop>,
    pub values: Result<Argument, Stop>,
    pub output: Result<Argument, Stop>,
}

#[derive(Clone, Copy)]
pub struct ConvertParts {
    pub store: Result<Argument, Stop>,
    pub sheet: Result<Argument, Stop>,
    pub buffer: Result<Argument, Stop>,
}

// Of a request that is whole, where all of them are there.

#[derive(Clone, Copy)]
pub struct InsertAsked {
    pub store: Argument,
    pub sheet: Argument,
    pub list: Argument,
}

#[derive(Clone, Copy)]
pub struct KeyAsked {
    pub store: Argument,
    pub row: Argument,
    pub buffer: Argument,
}

#[derive(Clone, Copy)]
pub struct CompareAsked {
    pub store: Argument,
    pub row: Argument,
    pub second: Argument,
    pub other: Argument,
}

#[derive(Clone, Copy)]
pub struct PartAsked {
    pub store: Argument,
    pub whole: Argument,
    pub part: Argument,
}

#[derive(Clone, Copy)]
pub struct ReaderAsked {
    pub bundle: Argument,
    pub place: Argument,
    pub steps: Argument,
}

#[derive(Clone, Copy)]
pub struct MendAsked {
    pub store: Argument,
    pub list: Argument,
}

#[derive(Clone, Copy)]
pub struct RunAsked {
    pub store: Argument,
    pub row: Argument,
    pub channels: Argument,
    pub values: Argument,
    pub output: Argument,
}

#[derive(Clone, Copy)]
pub struct ConvertAsked {
    pub store: Argument,
    pub sheet: Argument,
    pub buffer: Argument,
}

// One word run.
// Asks: the request has its first byte.
pub fn store_asked(ask: &[u8]) -> Result<Argument, Stop>
    requires { 0 < length ask.now }
    ensures { Reads ask.now (store_of ask.now) result }
{
    words_after(ask, Ok(opening()))
}

// One byte run.
// Asks: the request has its first byte.
pub fn bytes_asked(ask: &[u8]) -> Result<Argument, Stop>
    requires { 0 < length ask.now }
    ensures { Reads ask.now (bytes_of ask.now) result }
{
    bytes_after(ask, Ok(opening()))
}

// Asks: the request has its first byte.
pub fn insert_asked(ask: &[u8]) -> InsertParts
    requires { 0 < length ask.now }
    ensures { InsertRead ask.now result }
{
    let store = store_asked(ask);
    let sheet = bytes_after(ask, store);
    let list = words_after(ask, sheet);
    InsertParts { store, sheet, list }
}

// Asks: the request has its first byte.
pub fn key_asked(ask: &[u8]) -> KeyParts
    requires { 0 < length ask.now }
    ensures { KeyRead ask.now result }
{
    let store = store_asked(ask);
    let row = number_after(ask, store);
    let buffer = bytes_after(ask, row);
    KeyParts { store, row, buffer }
}

// Asks: the request has its first byte.
pub fn compare_asked(ask: &[u8]) -> CompareParts
    requires { 0 < length ask.now }
    ensures { CompareRead ask.now result }
{
    let store = store_asked(ask);
    let row = number_after(ask, store);
    let second = words_after(ask, row);
    let other = number_after(ask, second);
    CompareParts {
        store,
        row,
        second,
        other,
    }
}

// Asks: the request has its first byte.
pub fn part_asked(ask: &[u8]) -> PartParts
    requires { 0 < length ask.now }
    ensures { PartRead ask.now result }
{
    let store = store_asked(ask);
    let whole = number_after(ask, store);
    let part = number_after(ask, whole);
    PartParts { store, whole, part }
}

// Asks: the request has its first byte.
pub fn reader_asked(ask: &[u8]) -> ReaderParts
    requires { 0 < length ask.now }
    ensures { ReaderRead ask.now result }
{
    let bundle = bytes_asked(ask);
    let place = number_after(ask, bundle);
    let steps = steps_after(ask, place);
    ReaderParts {
        bundle,
        place,
        steps,
    }
}

// Asks: the request has its first byte.
pub fn mend_asked(ask: &[u8]) -> MendParts
    requires { 0 < length ask.now }
    ensures { MendRead ask.now result }
{
    let store = store_asked(ask);
    let list = words_after(ask, store);
    MendParts { store, list }
}

// Asks: the request has its first byte.
pub fn run_asked(ask: &[u8]) -> RunParts
    requires { 0 < length ask.now }
    ensures { RunRead ask.now result }
{
    let store = store_asked(ask);
    let row = number_after(ask, store);
    let channels = number_after(ask, row);
    let values = words_after(ask, channels);
    let output = words_after(ask, values);
    RunParts {
        store,
        row,
        channels,
        values,
        output,
    }
}

// Asks: the request has its first byte.
pub fn convert_asked(ask: &[u8]) -> ConvertParts
    requires { 0 < length ask.now }
    ensures { ConvertRead ask.now result }
{
    let store = store_asked(ask);
    let sheet = bytes_after(ask, store);
    let buffer = bytes_after(ask, sheet);
    ConvertParts {
        store,
        sheet,
        buffer,
    }
}
