//! Connections that come in, and where they come from, with stand-ins in memory.
#![tactic(auto)]

mod conn;
mod listener;
mod memory;

pub use conn::{Conn, Waker};
pub use listener::Listener;
pub use memory::{MemLink, MemListener, MemWaker};
