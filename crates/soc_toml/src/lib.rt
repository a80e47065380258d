//! Readers of one key of a TOML table, each with the exact form of what it takes.
#![tactic(auto)]

mod keys;
mod lists;

pub use keys::{first_other_key, name_at, number_of, number_or, text_at, value_at, visible_at};
pub use lists::{is_table_array, is_text, texts_of, texts_within};
