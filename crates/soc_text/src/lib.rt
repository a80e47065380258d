//! Words about text that std lacks, which several formats share: fronts and backs, line ends, blanks, tokens, digits,
//! paths.
#![tactic(auto)]

mod blanks;
mod digits;
mod lines;
mod parts;
mod paths;
mod tokens;

pub use blanks::{blanks_len, is_blank, trim_blanks};
pub use digits::{is_lower_hex, number, two_digits};
pub use lines::CRLF;
pub use parts::{after, before, strip_back, strip_front};
pub use paths::base_name;
pub use tokens::{is_token_byte, token_len};
