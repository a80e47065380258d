//! What the program's words say.
#![tactic(auto)]

mod words;

pub use words::{Task, Words, WordsError};
