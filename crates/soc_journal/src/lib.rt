//! The journal: a list of entries on a disk that may stop at any write, each of them there as a whole or not at all.
//!
//! A gate byte stands before each entry. One closed gate ends the journal, and what stands behind it counts for nothing.
//! An entry is written behind the closed gate, and with it the closed gate that is to follow. Only when both are safe from
//! a stop is the gate before the entry opened, by a write of its own. So no checksum is needed.
#![tactic(auto)]

mod entry_text;
mod error;
mod format;
mod gate;
mod journal;
mod laws;
mod mark;
mod opening;
mod reading;
mod settled;
mod staging;
mod writing;

pub use entry_text::EntryText;
pub use error::{AppendError, OpenError, ReadError};
pub use format::{ACCEPT, ASK, ENTRY_HEAD, MAX_BODY, REPORT, WITHDRAW};
pub use journal::Journal;
pub use laws::{entry_is_one, fault_is_one, gate_is_apart, text_is_one};
pub use mark::Mark;
pub use opening::Opening;
pub use settled::Settled;
