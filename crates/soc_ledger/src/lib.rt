//! The log of a desk without contents: of which crash what was done, in order, and tables that tell at once what the log
//! says of a crash and which crashes are due. It knows no disk.
#![tactic(auto)]

mod crash;
mod crashes;
mod due;
mod event;
mod ledger;
mod log;

pub use crash::{Crash, Filed, Standing};
pub use event::Event;
pub use ledger::Ledger;
