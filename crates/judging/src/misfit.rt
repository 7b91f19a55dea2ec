// Why rows that the starts lead to are refused.

// A row met is of a free operation or has a wrong input count; or it leads to a loop without a hold.
#[derive(Clone, Copy, PartialEq, Eq)]
pub enum Misfit {
    NotListed,
    NotHeld,
}
