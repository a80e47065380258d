//! Why a dump is refused.
use soc_base::NoMemory;
use std::alloc::{AllocError, AllocFailed};
use thiserror::Error;

/// Why a dump is refused. A place is a byte's offset in the file.
#[derive(Clone, Copy, Debug, PartialEq, Eq, Error)]
pub enum DumpError {
    /// The file doesn't begin with the signature.
    #[error("no minidump signature at {place}")]
    NoMagic { place: u64 },
    /// The header has another version.
    #[error("another version at {place}")]
    BadVersion { place: u64 },
    /// Something that the file names lies outside of it.
    #[error("{place} is out of the file")]
    OutOfFile { place: u64 },
    /// A stream's size doesn't fit its kind, or a module's name has an odd length.
    #[error("a bad stream of kind {kind} at {place}")]
    BadStream { kind: u32, place: u64 },
    /// The directory names a second stream of a kind that is used; the place is the entry's own.
    #[error("a second stream of kind {kind} at {place}")]
    TwoStreams { kind: u32, place: u64 },
    /// An allocation was refused.
    #[error("out of memory")]
    NoMemory,
}

impl From<NoMemory> for DumpError {
    ghost use Rattle.std.specs.Prelude.{◌≡◌};
    ghost use Rattle.soc_dump.specs.declared.error.DumpError.TheVariants.{NoMemory as WantsMemory};

    ghost from_gives = { λ _ error. error ≡ WantsMemory };

    fn from(_error: NoMemory) -> DumpError {
        DumpError::NoMemory
    }
}

impl From<AllocError> for DumpError {
    ghost use Rattle.std.specs.Prelude.{◌≡◌};
    ghost use Rattle.soc_dump.specs.declared.error.DumpError.TheVariants.{NoMemory as WantsMemory};

    ghost from_gives = { λ _ error. error ≡ WantsMemory };

    fn from(_error: AllocError) -> DumpError {
        DumpError::NoMemory
    }
}

impl<T: Drop> From<AllocFailed<T>> for DumpError {
    ghost use Rattle.std.specs.Prelude.{◌≡◌};
    ghost use Rattle.soc_dump.specs.declared.error.DumpError.TheVariants.{NoMemory as WantsMemory};

    ghost from_gives = { λ _ error. error ≡ WantsMemory };

    fn from(_error: AllocFailed<T>) -> DumpError {
        DumpError::NoMemory
    }
}
