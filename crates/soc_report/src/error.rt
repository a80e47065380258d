//! Why lists and symbols are refused.
ghost use Rattle.std.specs.Prelude.{◌≡◌};
ghost use Rattle.soc_report.specs.declared.error.KitError.TheVariants.{NoMemory as WantsMemory};

use soc_base::{NoMemory, Text};
use soc_siglists::{ListError, ListName};
use std::alloc::{AllocError, AllocFailed};
use thiserror::Error;

/// Why lists and symbols are refused.
#[derive(Debug, Drop, Error)]
pub enum KitError {
    #[error("line {line} of {} is bad", name.as_str())]
    BadLine {
        /// The symbol file's name in the tree.
        name: Text,
        /// Its first bad line, counted from 1.
        line: u64,
    },
    #[error("line {line} is no pattern")]
    BadPattern {
        /// The list.
        list: ListName,
        /// The first line that is no pattern, counted from 1.
        line: u64,
    },
    /// The maker of patterns failed. It comes only where its count of faults rose in the call.
    #[error("a pattern couldn't be made")]
    MakerFault,
    /// The tree failed. It comes only where its count of faults rose in the call.
    #[error("a file couldn't be read")]
    TreeFault,
    #[error("{} is missing", name.as_str())]
    Missing {
        /// The name in the tree of a symbol file that isn't there, or `symbols.txt` where that is no list of paths.
        name: Text,
    },
    /// An allocation was refused.
    #[error("out of memory")]
    NoMemory,
}

impl From<NoMemory> for KitError {
    ghost from_gives = { λ _ error. error ≡ WantsMemory };

    fn from(_error: NoMemory) -> KitError {
        KitError::NoMemory
    }
}

impl From<AllocError> for KitError {
    ghost from_gives = { λ _ error. error ≡ WantsMemory };

    fn from(_error: AllocError) -> KitError {
        KitError::NoMemory
    }
}

impl<T: Drop> From<AllocFailed<T>> for KitError {
    ghost from_gives = { λ _ error. error ≡ WantsMemory };

    fn from(_error: AllocFailed<T>) -> KitError {
        KitError::NoMemory
    }
}

impl From<ListError> for KitError {
    ghost use Rattle.soc_report.specs.inner.Reading.{of_list};

    ghost from_gives = { λ refusal error. error ≡ of_list refusal };

    fn from(error: ListError) -> KitError {
        match error {
            ListError::BadPattern { list, line } => KitError::BadPattern { list, line },
            ListError::MakerFault => KitError::MakerFault,
            ListError::NoMemory => KitError::NoMemory,
        }
    }
}
