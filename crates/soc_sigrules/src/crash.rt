//! What rules look at, and what they leave.
use crate::input::SigInput;
use soc_base::{Text, TextList};

/// What rules look at, besides the text so far.
#[derive(Clone, Copy)]
pub struct Crash<'a> {
    /// What the crash says of itself. Its frames aren't looked at.
    pub input: &'a SigInput,
    /// Whether the watchdog is among the frames.
    pub watched: bool,
}

/// A text, and the names of the rules that changed it.
#[derive(Drop)]
pub struct Marked {
    pub text: Text,
    pub notes: TextList,
}
