//! Connections over TCP. What passes through them is not told.
//!
//! The system's library has all that this asks of it but a wait for one of two things: a limit on a call that reads or
//! writes, accepts that don't wait, and the two halves of a connection's end.
mod accepting;
mod limits;
mod link;
mod listener;
mod waker;

pub use limits::SocketLimits;
pub use listener::SocketListener;
