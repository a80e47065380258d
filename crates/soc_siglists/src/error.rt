//! Why list files are refused.
ghost use Rattle.std.specs.Prelude.{◌≡◌};
ghost use Rattle.soc_siglists.specs.declared.error.ListError.TheVariants.{NoMemory as WantsMemory};

use soc_base::NoMemory;
use std::alloc::{AllocError, AllocFailed};
use thiserror::Error;

/// One of the three lists.
#[derive(Clone, Copy, Debug, PartialEq, Eq)]
pub enum ListName {
    /// Frames that signatures pass over.
    Irrelevant,
    /// Frames that the next frame is appended to.
    Prefix,
    /// Frames at which signatures begin.
    Sentinel,
}

/// Why list files are refused.
#[derive(Clone, Copy, Debug, PartialEq, Eq, Error)]
pub enum ListError {
    /// A line isn't UTF-8, or no pattern, or a pattern that is nested too deep: the first such line, counted from 1.
    /// The irrelevant list is read first, and the sentinels last.
    #[error("line {line} is no pattern")]
    BadPattern { list: ListName, line: u64 },
    /// The maker failed. It comes only where its count of faults rose in the call.
    #[error("a pattern couldn't be made")]
    MakerFault,
    /// An allocation was refused.
    #[error("out of memory")]
    NoMemory,
}

impl From<NoMemory> for ListError {
    ghost from_gives = { λ _ error. error ≡ WantsMemory };

    fn from(_error: NoMemory) -> ListError {
        ListError::NoMemory
    }
}

impl<T: Drop> From<AllocFailed<T>> for ListError {
    ghost from_gives = { λ _ error. error ≡ WantsMemory };

    fn from(_error: AllocFailed<T>) -> ListError {
        ListError::NoMemory
    }
}
