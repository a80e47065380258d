//! Why a call on a journal is refused.
use soc_base::NoMemory;
use soc_edge::Failed;
use std::alloc::AllocError;
use thiserror::Error;

/// Why a journal isn't opened. A place is a byte's offset on the disk.
#[derive(Clone, Copy, Debug, PartialEq, Eq, Error)]
pub enum OpenError {
    /// The disk doesn't begin as a journal does.
    #[error("not a journal")]
    NotOurs,
    /// The disk failed.
    #[error("the disk failed")]
    StoreFault,
    /// Neither a whole entry of a known kind nor a closed gate stands here.
    #[error("no entry and no closed gate at {place}")]
    BadEntry { place: u64 },
    /// An allocation was refused. The calls of this crate take no memory here, but those that read the bodies do.
    #[error("out of memory")]
    NoMemory,
}

impl From<Failed> for OpenError {
    ghost use Rattle.std.specs.Prelude.{◌≡◌};
    ghost use Rattle.soc_journal.specs.declared.error.OpenError.TheVariants.{StoreFault as failed_store};

    ghost from_gives = { λ _ error. error ≡ failed_store };

    fn from(_error: Failed) -> OpenError {
        OpenError::StoreFault
    }
}

/// Why an entry isn't appended.
#[derive(Clone, Copy, Debug, PartialEq, Eq, Error)]
pub enum AppendError {
    /// The disk failed. The journal is in doubt.
    #[error("the disk failed")]
    StoreFault,
    /// The entry doesn't fit the journal's limit. Nothing was done.
    #[error("the journal is full")]
    JournalFull,
}

impl From<Failed> for AppendError {
    ghost use Rattle.std.specs.Prelude.{◌≡◌};
    ghost use Rattle.soc_journal.specs.declared.error.AppendError.TheVariants.{StoreFault as failed_store};

    ghost from_gives = { λ _ error. error ≡ failed_store };

    fn from(_error: Failed) -> AppendError {
        AppendError::StoreFault
    }
}

/// Why an entry's body isn't read.
#[derive(Clone, Copy, Debug, PartialEq, Eq, Error)]
pub enum ReadError {
    /// The disk failed.
    #[error("the disk failed")]
    StoreFault,
    /// The disk doesn't hold what the journal had there.
    #[error("the disk was altered")]
    Altered,
    /// An allocation was refused.
    #[error("out of memory")]
    NoMemory,
}

impl From<Failed> for ReadError {
    ghost use Rattle.std.specs.Prelude.{◌≡◌};
    ghost use Rattle.soc_journal.specs.declared.error.ReadError.TheVariants.{StoreFault as failed_store};

    ghost from_gives = { λ _ error. error ≡ failed_store };

    fn from(_error: Failed) -> ReadError {
        ReadError::StoreFault
    }
}

impl From<AllocError> for ReadError {
    ghost use Rattle.std.specs.Prelude.{◌≡◌};
    ghost use Rattle.soc_journal.specs.declared.error.ReadError.TheVariants.{NoMemory as no_memory};

    ghost from_gives = { λ _ error. error ≡ no_memory };

    fn from(_error: AllocError) -> ReadError {
        ReadError::NoMemory
    }
}

impl From<NoMemory> for ReadError {
    ghost use Rattle.std.specs.Prelude.{◌≡◌};
    ghost use Rattle.soc_journal.specs.declared.error.ReadError.TheVariants.{NoMemory as no_memory};

    ghost from_gives = { λ _ error. error ≡ no_memory };

    fn from(_error: NoMemory) -> ReadError {
        ReadError::NoMemory
    }
}
