//! Stand-ins in memory for connections and where they come from.
mod link;
mod listener;
mod waker;

pub use link::MemLink;
pub use listener::MemListener;
pub use waker::MemWaker;
