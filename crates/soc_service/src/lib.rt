//! The service's threads below the socket: a desk that threads share in a hall, one that asks there, processors, and what
//! tests hold threads at.
#![tactic(auto)]

mod change;
mod desk;
mod due;
mod gate;
mod lists;
mod process;
mod processor;
mod sharing;
mod site;
mod turn;

pub use change::Change;
pub use desk::HallDesk;
pub use gate::{Gate, OpenGate, Point};
pub use process::Outcome;
pub use processor::{WorkerEnd, WorkerStop, worker};
pub use sharing::SharedDesk;
pub use site::Site;
