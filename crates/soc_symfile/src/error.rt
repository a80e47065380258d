//! Why a symbol file is refused.
use soc_base::NoMemory;
use std::alloc::{AllocError, AllocFailed};
use thiserror::Error;

/// Why a symbol file is refused.
#[derive(Clone, Copy, Debug, PartialEq, Eq, Error)]
pub enum SymError {
    /// A line is bad, the first such one. Lines are counted from 1.
    #[error("line {line} is bad")]
    BadLine { line: u64 },
    /// An allocation was refused.
    #[error("out of memory")]
    NoMemory,
}

impl From<NoMemory> for SymError {
    ghost use Rattle.std.specs.Prelude.{◌≡◌};
    ghost use Rattle.soc_symfile.specs.declared.error.SymError.TheVariants.{NoMemory as WantsMemory};

    ghost from_gives = { λ _ error. error ≡ WantsMemory };

    fn from(_error: NoMemory) -> SymError {
        SymError::NoMemory
    }
}

impl From<AllocError> for SymError {
    ghost use Rattle.std.specs.Prelude.{◌≡◌};
    ghost use Rattle.soc_symfile.specs.declared.error.SymError.TheVariants.{NoMemory as WantsMemory};

    ghost from_gives = { λ _ error. error ≡ WantsMemory };

    fn from(_error: AllocError) -> SymError {
        SymError::NoMemory
    }
}

impl<T: Drop> From<AllocFailed<T>> for SymError {
    ghost use Rattle.std.specs.Prelude.{◌≡◌};
    ghost use Rattle.soc_symfile.specs.declared.error.SymError.TheVariants.{NoMemory as WantsMemory};

    ghost from_gives = { λ _ error. error ≡ WantsMemory };

    fn from(_error: AllocFailed<T>) -> SymError {
        SymError::NoMemory
    }
}
