// The line that answers a whole request, with all lent memory as it is afterwards.
#![tactic(auto)]

pub mod answer;
mod convert_request;
mod key_requests;
mod lines;
pub mod memory;
mod mend_request;
mod next_request;
mod reader_request;
mod row_requests;
mod run_request;
mod sheet_request;
mod store_requests;
