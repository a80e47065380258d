//! Forms of crash reporters (RFC 7578): the submission that a message is, from its whole body or from pieces of it.
#![tactic(auto)]

mod extras;
mod fields;
mod form_error;
mod form_lines;
mod forms;
mod reasons;
mod submissions;

pub use form_error::FormError;
pub use forms::Form;
pub use reasons::Reason;
pub use soc_multipart::{
    OwnedPart, OwnedParts, Part, Parts, PartsError, Reader, cut_is_one, fault_is_one, read_whole,
};
pub use submissions::{Submission, read_submission, submission_is_one};
