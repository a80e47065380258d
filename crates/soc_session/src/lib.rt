//! One connection over any desk: bytes in, replies out, in order.
#![tactic(auto)]

mod answers;
mod arrivals;
mod bodies;
mod connection;
mod drawing;
mod ending;
mod forms;
mod intake;
mod json;
mod laws;
mod lines;
mod parameters;
mod plans;
mod question;
mod replies;
mod routes;
mod rules;
mod setting;
mod stacks;

pub use connection::session;
pub use ending::SessionEnd;
pub use laws::plan_is_one;
pub use rules::Rules;
pub use setting::Setting;
pub use stacks::Stacks;
