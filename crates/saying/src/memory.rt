// The memory that the runs of a request are put into.
ghost use Rattle.saying.specs.Rooms.{Rooms};

// Room for the longest runs: two of words, one of bytes and two of signed numbers.
#[derive(Drop)]
pub struct Memory<'a> {
    pub words: &'a mut [u32],
    pub others: &'a mut [u32],
    pub buffer: &'a mut [u8],
    pub values: &'a mut [i32],
    pub output: &'a mut [i32],
    ghost rooms: { Rooms words.now others.now buffer.now values.now output.now },
}
