// A request at the front of some bytes: its last argument, with which it ends, or why it cannot be read.
ghost use Rattle.requests.specs.Arguments.{Reads};
ghost use Rattle.requests.specs.Requests.{request_of};

use crate::argument::{Argument, Stop};
use crate::asked::{
    bytes_asked, compare_asked, convert_asked, insert_asked, key_asked, mend_asked, part_asked,
    reader_asked, run_asked, store_asked,
};

pub fn request(ask: &[u8]) -> Result<Argument, Stop>
    ensures { Reads ask.now (request_of ask.now) result }
{
    if ask.is_empty() {
        return Err(Stop::More);
    }
    match ask[0] {
        1 => store_asked(ask),
        2 | 10 => insert_asked(ask).list,
        3 => key_asked(ask).buffer,
        4 | 7 | 9 => bytes_asked(ask),
        5 => compare_asked(ask).other,
        6 => part_asked(ask).part,
        8 => reader_asked(ask).steps,
        11 => mend_asked(ask).list,
        12 => run_asked(ask).output,
        13 => convert_asked(ask).buffer,
        _ => Err(Stop::What),
    }
}
