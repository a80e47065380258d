//! Why a message was not read as a submission.
use crate::reasons::Reason;
use soc_base::NoMemory;
use std::alloc::{AllocError, AllocFailed};
use thiserror::Error;

/// Why a message was not read as a submission.
#[derive(Clone, Copy, Debug, Error, PartialEq, Eq)]
pub enum FormError {
    #[error("malformed: {0}")]
    Malformed(Reason),
    #[error("out of memory")]
    NoMemory,
}

impl From<NoMemory> for FormError {
    ghost use Rattle.std.specs.Prelude.{◌≡◌};
    ghost use Rattle.soc_forms.specs.declared.form_error.FormError.TheVariants.{NoMemory};

    ghost from_gives = { λ _ error. error ≡ NoMemory };

    fn from(_error: NoMemory) -> FormError {
        FormError::NoMemory
    }
}

impl From<AllocError> for FormError {
    ghost use Rattle.std.specs.Prelude.{◌≡◌};
    ghost use Rattle.soc_forms.specs.declared.form_error.FormError.TheVariants.{NoMemory};

    ghost from_gives = { λ _ error. error ≡ NoMemory };

    fn from(_error: AllocError) -> FormError {
        FormError::NoMemory
    }
}

impl<T: Drop> From<AllocFailed<T>> for FormError {
    ghost use Rattle.std.specs.Prelude.{◌≡◌};
    ghost use Rattle.soc_forms.specs.declared.form_error.FormError.TheVariants.{NoMemory};

    ghost from_gives = { λ _ error. error ≡ NoMemory };

    fn from(_error: AllocFailed<T>) -> FormError {
        FormError::NoMemory
    }
}
