//! Connections served at a desk that may stop, one or those that a shared listener hands out, and the count of what was
//! served; and what such threads share: a door, tickets, a clock and draws that they take turns at. The desk is any that
//! counts what it keeps.
#![tactic(auto)]

mod collecting;
mod door;
mod serving;
mod shared;
mod shut;
mod ticket;
mod watch;

pub use collecting::collect;
pub use door::{Door, Naming};
pub use serving::{Tally, serve_one};
pub use shared::{Shared, SharedClock, SharedDraws};
pub use shut::Shut;
pub use ticket::Ticket;
