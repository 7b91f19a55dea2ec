// The operations that a request asks for, on the runs and numbers in it. Each contract is the operation's own, in terms of the request:
// a run that the operation only reads holds the words of the request at the end.
#![tactic(auto)]

pub mod bundle_runs;
pub mod convert_runs;
pub mod key_runs;
pub mod mend_runs;
pub mod row_runs;
pub mod run_runs;
pub mod sheet_runs;
pub mod store_runs;
