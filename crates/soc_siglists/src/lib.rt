//! Lists of patterns that decide which frames of a stack count in signatures.
#![tactic(auto)]

mod automaton;
mod entries;
mod error;
mod failing_maker;
mod lead;
mod led;
mod lines;
mod lists;
mod literals;
mod maker;
mod matchers;
mod pattern;
mod patterns;
mod reading;
mod regex_maker;

pub use entries::entry_texts;
pub use error::{ListError, ListName};
pub use failing_maker::FailingMaker;
pub use lists::Lists;
pub use maker::{MakeError, Maker};
pub use matchers::ListMatchers;
pub use regex_maker::RegexMaker;
