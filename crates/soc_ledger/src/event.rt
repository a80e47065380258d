//! The events of a log.
use soc_raw::CrashId;

/// What was done, and of which crash.
#[derive(Clone, Copy, Debug, PartialEq, Eq)]
pub enum Event {
    /// A new crash was accepted.
    Accepted(CrashId),
    /// A held crash was asked for.
    Asked(CrashId),
    /// A held crash was withdrawn.
    Withdrawn(CrashId),
    /// A report of a held crash was kept, made by the run's own lists and symbols or by others.
    Reported { id: CrashId, own: bool },
    /// A due crash was processed.
    Done(CrashId),
    /// The service was stopped.
    Stopped,
}
