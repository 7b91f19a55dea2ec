// A whole request answered by its line.
ghost use Rattle.requests.specs.Requests.{WholeRequest};

use crate::convert_request::say_convert;
use crate::key_requests::{say_is_key, say_key};
use crate::memory::Memory;
use crate::mend_request::say_mend;
use crate::next_request::say_next;
use crate::reader_request::say_reader;
use crate::row_requests::{say_compare, say_part};
use crate::run_request::say_run;
use crate::sheet_request::say_read;
use crate::store_requests::{say_check, say_insert, say_strict};
use printing::Printer;
use standard::Failed;

// Asks: a whole request, which is one of the thirteen.
pub fn answer(ask: &[u8], memory: &mut Memory, printer: &mut Printer) -> Result<(), Failed>
    requires { WholeRequest ask.now }
{
    match ask[0] {
        1 => say_check(ask, memory, printer),
        2 => say_insert(ask, memory, printer),
        3 => say_key(ask, memory, printer),
        4 => say_is_key(ask, printer),
        5 => say_compare(ask, memory, printer),
        6 => say_part(ask, memory, printer),
        7 => say_next(ask, printer),
        8 => say_reader(ask, printer),
        9 => say_read(ask, printer),
        10 => say_strict(ask, memory, printer),
        11 => say_mend(ask, memory, printer),
        12 => say_run(ask, memory, printer),
        _ => say_convert(ask, memory, printer),
    }
}
