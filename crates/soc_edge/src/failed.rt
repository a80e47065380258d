//! The one fault of what lies outside.
use thiserror::Error;

/// A call to the outside failed. It comes only where that object's count of faults rose in the call.
#[derive(Clone, Copy, Debug, PartialEq, Eq, Error)]
#[error("a call to the outside failed")]
pub struct Failed;
