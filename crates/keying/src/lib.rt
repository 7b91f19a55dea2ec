// Writing the key of a row of a store.
#![tactic(auto)]

ghost use Rattle.std.specs.Prelude.{◌≡◌, ◌<◌, length};
ghost use Rattle.store.specs.Layout.{store_graph, room};
ghost use Rattle.walks.specs.Key.{walk_all};
ghost use Rattle.walker.specs.Queue.{Queued};
ghost use Rattle.checking.specs.Checked.{SoundStore};
ghost use Rattle.keying.specs.Written.{WriteSays};

use checking::look_over;
use keywriter::reads::Walked;
use keywriter::sheets::{sheet_length, write_sheet};
use store::row::ROOM;
use walker::walk_from;

// The number of the table, and the bytes written.
// It stays a struct: WriteSays and the theorems speak of both parts at once, and C gets both.
#[derive(Clone, Copy)]
pub struct Written {
    pub number: u32,
    pub bytes: usize,
}

impl Written {
    // Beside a refusal no byte is written.
    fn refused(number: u32) -> Written
        ensures { result ≡ record { number = number; bytes = 0 } }
    {
        Written { number, bytes: 0 }
    }
}

// The walk is done: 10, or the key.
fn write_walked(
    store: &[u32],
    n: usize,
    row: usize,
    queue: &[u16],
    marks: &[u16],
    filled: usize,
    key: &mut [u8],
) -> Written
    requires { SoundStore store.now n ×
        (row < n) ×
        Queued n queue.now marks.now filled (walk_all (store_graph room store.now) n row) }
    ensures { WriteSays store.now row key.old result key.new }
{
    let walked = Walked {
        store,
        most: ROOM,
        n,
        queue,
        marks,
        filled,
    };
    let need = sheet_length(&walked);
    if key.len() < need {
        return Written::refused(10);
    }
    write_sheet(&walked, need, key);
    Written {
        number: 0,
        bytes: need,
    }
}

fn write_from(
    store: &[u32],
    n: usize,
    row: usize,
    queue: &mut [u16],
    marks: &mut [u16],
    key: &mut [u8],
) -> Written
    requires sound_store { SoundStore store.now n × (row < n) }
    requires queue_len { (length queue.old ≡ 1024) × (length marks.old ≡ 1024) }
    ensures { WriteSays store.now row key.old result key.new }
{
    let filled = walk_from(store, ROOM, n, row, queue, marks);
    write_walked(store, n, row, queue, marks, filled, key)
}

fn write_row(store: &[u32], n: usize, row: usize, key: &mut [u8]) -> Written
    requires { SoundStore store.now n × (row < n) }
    ensures { WriteSays store.now row key.old result key.new }
{
    let mut queue = [0u16; 1024];
    let mut marks = [0u16; 1024];
    write_from(store, n, row, &mut queue, &mut marks, key)
}

// The store is sound: 9, or the rest.
fn write_in(store: &[u32], n: usize, row: usize, key: &mut [u8]) -> Written
    requires { SoundStore store.now n }
    ensures { WriteSays store.now row key.old result key.new }
{
    if n <= row {
        return Written::refused(9);
    }
    write_row(store, n, row, key)
}

// 1, 2, 9, 10 in this order, and then no byte changes; or the row's key over the front of the buffer.
pub fn write_key(store: &[u32], row: u32, key: &mut [u8]) -> Written
    ensures { WriteSays store.now row key.old result key.new }
{
    match look_over(store) {
        Err(flaw) => Written::refused(flaw.number()),
        Ok(n) => write_in(store, n, row as usize, key),
    }
}
