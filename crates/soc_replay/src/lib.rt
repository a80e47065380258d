//! The top call: what the program does with its words, its files, its journal, its input and its output.
#![tactic(auto)]

mod check;
mod documents;
mod ending;
mod export;
mod laws;
mod opening;
mod refusal;
mod replay;
mod serving;
mod settings;
mod setup;
mod stacks;
mod texts;
mod token_text;
mod words;

pub use check::push_line;
pub use ending::{Keeping, RunEnd};
pub use laws::runs_are_lives;
pub use opening::open;
pub use refusal::{FileRefusal, FilesFault};
pub use replay::refuse_text;
pub use settings::{Settings, SettingsError};
pub use setup::{Setup, set_up};
pub use stacks::KitStacks;
pub use texts::{Texts, read_texts};
pub use token_text::{TokensError, read_tokens};
pub use words::{run_words, tell_usage};
