//! The crew of the service: collectors and processors, each in a thread of its own, over one shared desk.
#![tactic(auto)]

mod beside;
mod collector;
mod crew;
mod jobs;
mod leaving;
mod processor;
mod stations;
mod work;

pub use beside::side_by_side;
pub use crew::{Crew, CrewEnd, CrewSetting, serve_together};
