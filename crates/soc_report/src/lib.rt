//! Reports: from a raw crash to its row, with lists of frames and symbol files.
#![tactic(auto)]

mod annotations;
mod digest;
mod dump;
mod error;
mod frame_json;
mod index;
mod json;
mod kit;
mod known;
mod module_json;
mod moment;
mod parts;
mod paths;
mod row;
mod source;
mod stack;
mod stack_json;
mod streams;
mod texts;
mod value;

pub use digest::one_kit;
pub use error::KitError;
pub use kit::Kit;
pub use source::sources_are_of_fields;
pub use stack_json::stack_text;
pub use texts::KitText;
