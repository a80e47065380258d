//! Breakpad symbol files: read once into tables over the text, and looked up without memory.
#![tactic(auto)]

mod cfi_span;
mod covers;
mod entries;
mod error;
mod found;
mod line;
mod lines;
mod numbers;
mod owners;
mod path;
mod places;
mod reading;
mod symfile;
mod tables;
mod words;

pub use cfi_span::CfiSpan;
pub use error::SymError;
pub use found::Found;
pub use path::{is_symbol_path, symbol_path};
pub use symfile::SymFile;
