//! The two top calls: the service over a listener, by collectors and processors beside each other over one journal, and
//! what the program does without one.
#![tactic(auto)]

mod ending;
mod files;
mod hosting;
mod laws;
mod lines;
mod serving;
mod storm;
mod summary;
mod sweep;

pub use ending::HostEnd;
pub use hosting::run_hall;
pub use laws::services_are_lives;
pub use lines::LinesFault;
pub use soc_replay::run_words;
pub use sweep::SweepFault;
