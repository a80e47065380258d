//! Why a query for top crashers isn't read.
use soc_base::{NoMemory, Text};
use thiserror::Error;

/// Why a query for top crashers isn't read.
#[derive(Debug, Drop, Error)]
pub enum TopsError {
    #[error("bad parameter {}", name.as_str())]
    BadParameter {
        /// The parameter's name.
        name: Text,
    },
    /// An allocation was refused.
    #[error("out of memory")]
    NoMemory,
}

impl From<NoMemory> for TopsError {
    ghost use Rattle.std.specs.Prelude.{◌≡◌};
    ghost use Rattle.soc_tops.specs.declared.error.TopsError.TheVariants.{NoMemory as Lacking};

    ghost from_gives = { λ _ error. error ≡ Lacking };

    fn from(_error: NoMemory) -> TopsError {
        TopsError::NoMemory
    }
}
