//! Texts, bytes, lists and maps as contracts see them, and bytes that are read from their front.
#![tactic(auto)]

mod blobs;
mod bytes;
mod cursor;
mod items;
mod named;
mod no_memory;
mod pairs;
mod shared_text;
mod sorted;
mod text;
mod text_list;
mod texts;

pub use blobs::Blobs;
pub use bytes::Bytes;
pub use cursor::Cursor;
pub use items::Items;
pub use named::{BlobPairs, NamedValues, TextPairs};
pub use no_memory::NoMemory;
pub use pairs::Pairs;
pub use shared_text::SharedText;
pub use sorted::Sorted;
pub use text::Text;
pub use text_list::{TextItems, TextList};
pub use texts::Texts;
