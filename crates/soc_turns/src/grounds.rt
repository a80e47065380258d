//! What no turn of a shared book changes.
use soc_desk::Limits;

/// What no turn changes. No value of it is made.
pub struct Grounds<R, B> {
    pub reporter: R,
    pub limits: Limits,
    /// Which lent disk the book holds.
    pub lent: u64,
    /// The book as it was when it was opened.
    pub opened: B,
}
