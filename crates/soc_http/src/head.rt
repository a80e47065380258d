//! Heads of requests, and why one is refused.
use crate::verb::Verb;
use soc_base::{NoMemory, Pairs, Text};
use thiserror::Error;

/// What the head of a request says (RFC 9112, sections 3 to 6).
#[derive(Debug, Drop)]
pub struct Head {
    pub verb: Verb,
    /// The target up to a first `?`. It is not decoded.
    pub path: Text,
    /// The target behind a first `?`, or nothing. It is not decoded.
    pub query: Text,
    /// The names and values of the head's lines, in order. In values, bytes that aren't UTF-8 became U+FFFD.
    pub lines: Pairs,
    /// The body's length in bytes, at most 16,777,216.
    pub length: u64,
    /// The length of the head itself in bytes, with its empty line.
    pub bytes: u64,
    /// Whether the reply is the last one of its connection.
    pub last: bool,
}

/// Why a head is refused.
#[derive(Clone, Copy, Debug, PartialEq, Eq, Error)]
pub enum HeadError {
    /// It is no request head, or doesn't state its length as one number of 1 to 19 digits.
    #[error("bad head")]
    BadHead,
    /// It doesn't end within 16,384 bytes, or has more than 64 lines behind the first.
    #[error("head too large")]
    HeadTooLarge,
    /// It has a `Transfer-Encoding`, or is a POST that states no length.
    #[error("no length")]
    NoLength,
    /// It states a length over 16,777,216.
    #[error("body too large")]
    BodyTooLarge,
    /// The input ends within it.
    #[error("cut short")]
    CutShort,
    /// The source failed.
    #[error("read fault")]
    ReadFault,
    #[error("no memory")]
    NoMemory,
}

impl From<NoMemory> for HeadError {
    ghost use Rattle.std.specs.Prelude.{◌≡◌};
    ghost use Rattle.soc_http.specs.declared.head.HeadError.TheVariants.{NoMemory as no_memory};

    ghost from_gives = { λ _ error. error ≡ no_memory };

    fn from(_error: NoMemory) -> HeadError {
        HeadError::NoMemory
    }
}
