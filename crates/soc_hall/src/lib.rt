//! A ticketed lock over any state that keeps a log: each turn is one piece of the one log.
#![tactic(auto)]

mod ask;
mod close;
mod hall;
mod logged;
mod meet;
mod plays;
mod seats;
#[cfg(test)]
mod tests;
mod view;

pub use hall::{Hall, HallReceipt, Room};
pub use logged::Logged;
pub use seats::{HallSeat, HallSeats, Seat, Seats};
pub use view::{Entry, Known, Law, Place, Stage, Start, Turn, View};
