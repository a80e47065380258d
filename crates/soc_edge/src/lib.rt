//! What lies outside the service: where bytes come from and go to, clocks, random draws, trees of files and disks,
//! and stand-ins for each of them in memory.
//!
//! Each object counts its faults. `Failed` comes only in a call in which that count rose, so no body can give up by
//! itself. What an object has left, holds or will hand out is optional: an object that tells none of it keeps the
//! causes of its answers all the same.
#![tactic(auto)]

mod both;
mod clock;
mod counted;
mod disk;
mod failed;
mod faults;
mod memory;
mod read_ahead;
mod sink;
mod source;
mod steps;
mod telling;
mod tells;
mod tree;
mod whole;
mod world;

pub use both::Both;
pub use clock::{Clock, Draws};
pub use counted::{Counted, Device};
pub use disk::Disk;
pub use failed::Failed;
pub use faults::{CountsFaults, FaultCount};
pub use memory::{
    BytesList, CallCount, Ids16, MemClock, MemDisk, MemDraws, MemSink, MemSource, MemTree, Numbers,
};
pub use read_ahead::ReadAhead;
pub use sink::Sink;
pub use source::Source;
pub use steps::Steps;
pub use telling::Telling;
pub use tells::Tells;
pub use tree::{Tree, TreeError};
pub use whole::write_all;
pub use world::{TellsAll, World};
