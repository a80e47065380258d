//! Crash ids, days, and raw crashes with their records; what they are made of is exported on.
#![tactic(auto)]

mod copies;
mod crash_id;
mod day;
mod decoding;
mod digit;
mod raw_crash;
mod reading;
mod record_error;
mod writing;

pub use crash_id::CrashId;
pub use day::{Date, FIRST_MOMENT, LAST_MOMENT, day_of, is_civil};
pub use digit::Digit;
pub use raw_crash::{RawCrash, one_content, one_crash};
pub use record_error::RecordError;
pub use soc_base::{
    BlobPairs, Blobs, Bytes, Cursor, NamedValues, NoMemory, Pairs, Sorted, Text, TextItems,
    TextList, TextPairs, Texts,
};
