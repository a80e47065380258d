//! Bodies of `multipart/form-data` (RFC 2046, section 5.1.1; RFC 7578): the parts of a whole body, and of one that comes
//! in pieces.
#![tactic(auto)]

mod delimiters;
mod dispositions;
mod heads;
mod owned_parts;
mod params;
mod parts;
mod readers;
mod sections;
mod tails;

pub use delimiters::is_boundary;
pub use dispositions::lossy_text;
pub use owned_parts::{OwnedPart, OwnedParts};
pub use params::{Param, find_param, params as parameters};
pub use parts::{Part, Parts, PartsError, cut_is_one, fault_is_one, read_whole};
pub use readers::{Reader, parts_stay};
