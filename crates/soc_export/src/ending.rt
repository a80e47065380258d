//! How an export ends.
use soc_raw::CrashId;
use thiserror::Error;

/// Why it isn't known who asks.
#[derive(Clone, Copy, Debug, PartialEq, Eq, Error)]
pub enum KeyError {
    /// The input failed.
    #[error("the input failed")]
    InputFault,
    /// An allocation was refused.
    #[error("out of memory")]
    NoMemory,
}

/// What became of the rows of a desk's log.
#[derive(Clone, Copy, Debug, PartialEq, Eq)]
pub enum ExportEnd {
    /// All were written.
    Written,
    /// The output failed.
    Cut,
    /// The disk failed while reports were made.
    DiskFault,
    /// The disk gave back another record of the crash of this id than it was given.
    Altered { id: CrashId },
    NoMemory,
}

/// What became of a row, or of many.
#[derive(Clone, Copy, PartialEq, Eq)]
pub(crate) enum RowEnd {
    Written,
    /// The output failed.
    Cut,
    /// An allocation was refused before a row was written.
    NoMemory,
}
