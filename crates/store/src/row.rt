// A row of the store: read by value with its inputs as an array, and put at its place.
ghost use Rattle.std.specs.Prelude.{◌≡◌, ◌+◌, ◌≤◌, ◌<◌, length, take};
ghost use Rattle.std.proofs.lemmas.List.Edits.{sets};
ghost use Rattle.rules.specs.Lists.{in_room, widest};
ghost use Rattle.store.specs.Layout.{word_at, row_word, label_of, count_of, input_of};
ghost use Rattle.store.specs.Rows.{RowThere, row_of, words_of_row};

// Inputs for which a row has room, in a store (six words a row) and by value.
pub const ROOM: usize = 4;

#[derive(Clone, Copy)]
pub struct Row {
    pub label: u32,
    pub count: u32,
    pub inputs: [u32; ROOM],
}

// The word at which row n starts.
fn place(most: usize, n: usize) -> usize
    requires { (most ≤ widest) × (n < 1024) }
    ensures { result ≡ row_word most n }
{
    1 + n * (most + 2)
}

// Reading behind one function keeps the bounds of the index out of its callers.
fn word(store: &[u32], at: usize) -> u32
    requires { at < length store.now }
    ensures { result ≡ word_at store.now at }
{
    store[at]
}

// Asks: the row's words are all there. Callers read rows below the capacity.
pub fn label_of(store: &[u32], most: usize, n: usize) -> u32
    requires { RowThere most store.now n }
    ensures { result ≡ label_of most store.now n }
{
    word(store, place(most, n))
}

// Asks: the row's words are all there. Callers read rows below the capacity.
pub fn count_of(store: &[u32], most: usize, n: usize) -> u32
    requires { RowThere most store.now n }
    ensures { result ≡ count_of most store.now n }
{
    word(store, place(most, n) + 1)
}

// Asks: the row's words are all there, and the row has room for the input. Callers count inputs below the room.
pub fn input_of(store: &[u32], most: usize, n: usize, j: usize) -> u32
    requires { RowThere most store.now n × (j < most) }
    ensures { result ≡ input_of most store.now n j }
{
    word(store, place(most, n) + 2 + j)
}

// The input words of a row, and zero past them.
fn inputs_of(store: &[u32], most: usize, n: usize) -> [u32; ROOM]
    requires { RowThere most store.now n }
    ensures { result ≡ in_room widest (input_of most store.now n) most }
{
    let mut found = [0u32; ROOM];
    for j in 0..most {
        found[j] = input_of(store, most, n, j);
    }
    found
}

// Asks: the row's words are all there. Callers read rows in use of a shaped store.
pub fn read_row(store: &[u32], most: usize, n: usize) -> Row
    requires { RowThere most store.now n }
    ensures { result ≡ row_of most store.now n }
{
    Row {
        label: label_of(store, most, n),
        count: count_of(store, most, n),
        inputs: inputs_of(store, most, n),
    }
}

// The inputs from a word on, as many as a row of the store has room for.
fn put_inputs(store: &mut [u32], most: usize, at: usize, inputs: [u32; ROOM])
    requires { (most ≤ widest) × (at + most ≤ length store.old) }
    ensures { store.new ≡ sets store.old at (take most inputs) }
{
    store[at..at + most].copy_from_slice(&inputs[..most]);
}

// Asks: the row's words are all there. Callers put rows below the capacity.
pub fn put_row(store: &mut [u32], most: usize, n: usize, row: Row)
    requires { RowThere most store.old n }
    ensures { store.new ≡ sets store.old (row_word most n) (words_of_row most row) }
{
    let at = place(most, n);
    store[at] = row.label;
    store[at + 1] = row.count;
    let inputs = row.inputs;
    put_inputs(store, most, at + 2, inputs);
}
