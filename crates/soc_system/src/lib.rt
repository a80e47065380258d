//! The system's folders, files, streams, addresses, clock and random bytes, as the rest of the service sees what lies
//! outside. What passes through them is not told. The operator is told on standard error of what fails.
#![tactic(auto)]

mod alarm;
mod clock;
mod disk;
mod draws;
mod folder;
mod journal_file;
mod notices;
mod opening;
mod reasons;
mod socket;
mod streams;
#[cfg(test)]
mod tests;

pub use alarm::Alarm;
pub use clock::{SystemClock, can_be_read};
pub use draws::SystemDraws;
pub use folder::Folder;
pub use journal_file::JournalFile;
pub use reasons::Ending;
pub use socket::{SocketLimits, SocketListener};
pub use streams::{InputStream, OutputStream};
