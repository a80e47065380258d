//! Why the cases weren't played.
use soc_base::NoMemory;
use std::alloc::{AllocError, AllocFailed};
use std::io;
use thiserror::Error;

/// Why the cases weren't played.
#[derive(Debug, Drop, Error)]
pub enum Fault {
    /// The file isn't what its first lines say, at this key.
    #[error("cases.toml: {0}")]
    Wrong(&'static str),
    /// An allocation was refused.
    #[error("out of memory")]
    NoMemory,
    /// The system gave no file, or took no text.
    #[error("{0}")]
    Io(io::Error),
}

impl From<NoMemory> for Fault {
    fn from(_error: NoMemory) -> Fault {
        Fault::NoMemory
    }
}

impl From<AllocError> for Fault {
    fn from(_error: AllocError) -> Fault {
        Fault::NoMemory
    }
}

impl<T: Drop> From<AllocFailed<T>> for Fault {
    fn from(_error: AllocFailed<T>) -> Fault {
        Fault::NoMemory
    }
}

impl From<io::Error> for Fault {
    fn from(error: io::Error) -> Fault {
        Fault::Io(error)
    }
}
