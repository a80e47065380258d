//! Minidumps: what a crashed process left of its memory, read without trust in one byte of it.
#![tactic(auto)]

mod covering;
mod directory;
mod dump;
mod error;
mod exception;
mod field;
mod identity;
mod layer;
mod layout;
mod list;
mod memory;
mod modules;
mod names;
mod part;
mod pieces;
mod registers;
mod streams;
mod system;
mod thread;
mod utf16;
mod word;
mod words;

pub use covering::{FirstCovering, Interval};
pub use dump::Dump;
pub use error::DumpError;
pub use exception::Exception;
pub use identity::{debug_file, debug_id, short_debug_file};
pub use modules::Module;
pub use names::{architecture_name, crash_reason, platform_name};
pub use registers::{amd64_registers, x86_registers};
pub use system::System;
pub use thread::Thread;
pub use words::Words;
