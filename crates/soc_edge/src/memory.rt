//! Stand-ins in memory for what lies outside.
mod calls;
mod clock;
mod disk;
mod draws;
mod lists;
mod put;
mod sink;
mod source;
mod stop;
mod tree;

pub use calls::CallCount;
pub use clock::MemClock;
pub use disk::MemDisk;
pub use draws::MemDraws;
pub use lists::{BytesList, Ids16, Numbers};
pub use sink::MemSink;
pub use source::MemSource;
pub use tree::MemTree;
