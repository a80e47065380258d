//! Why bytes give no raw crash.

use soc_base::NoMemory;
use thiserror::Error;

/// Why bytes give no raw crash.
#[derive(Clone, Copy, Debug, PartialEq, Eq, Error)]
pub enum RecordError {
    /// They are no record.
    #[error("no record")]
    BadRecord,
    /// An allocation was refused.
    #[error("out of memory")]
    NoMemory,
}

impl From<NoMemory> for RecordError {
    ghost use Rattle.std.specs.Prelude.{◌≡◌};
    ghost use Rattle.soc_raw.specs.declared.record_error.RecordError.TheVariants.{NoMemory as no_memory};

    ghost from_gives = { λ _ e. e ≡ no_memory };

    fn from(_error: NoMemory) -> RecordError {
        RecordError::NoMemory
    }
}
