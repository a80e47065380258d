//! Why a query isn't read.
use soc_base::{NoMemory, Text};
use soc_schema::Permission;
use std::alloc::AllocError;
use thiserror::Error;

/// Why a query isn't read: the first faulty pair decides.
#[derive(Debug, Drop, Error)]
pub enum QueryError {
    #[error("unknown field {}", name.as_str())]
    UnknownField {
        /// The name, which no field has.
        name: Text,
    },
    #[error("field {} needs {}", name.as_str(), permission.name())]
    NotGranted {
        /// The field's name.
        name: Text,
        /// What the caller needs to see it.
        permission: Permission,
    },
    #[error("bad value {}", name.as_str())]
    BadValue {
        /// The pair's name.
        name: Text,
    },
    #[error("bad number {}", name.as_str())]
    BadNumber {
        /// The pair's name.
        name: Text,
    },
    /// There are over 128 pairs, and the first 128 have no fault.
    #[error("too many conditions")]
    TooManyConditions,
    /// An allocation was refused.
    #[error("out of memory")]
    NoMemory,
}

impl From<NoMemory> for QueryError {
    ghost use Rattle.std.specs.Prelude.{◌≡◌};
    ghost use Rattle.soc_query.specs.declared.error.QueryError.TheVariants.{NoMemory as Lacking};

    ghost from_gives = { λ _ error. error ≡ Lacking };

    fn from(_error: NoMemory) -> QueryError {
        QueryError::NoMemory
    }
}

impl From<AllocError> for QueryError {
    ghost use Rattle.std.specs.Prelude.{◌≡◌};
    ghost use Rattle.soc_query.specs.declared.error.QueryError.TheVariants.{NoMemory as Lacking};

    ghost from_gives = { λ _ error. error ≡ Lacking };

    fn from(_error: AllocError) -> QueryError {
        QueryError::NoMemory
    }
}
