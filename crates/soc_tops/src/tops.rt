//! What the answer has.
use soc_base::{Items, Text};

/// A signature with its counts and ranks in both ranges of days.
#[derive(Debug, Drop)]
pub struct Top {
    /// The signature.
    pub signature: Text,
    /// How many of the new rows have it, at least 1.
    pub count: u64,
    /// Its rank among the new rows' signatures, from 1.
    pub rank: u64,
    /// How many of the old rows have it.
    pub old_count: u64,
    /// Its rank among the old rows' signatures, from 1, if one has it.
    pub old_rank: Option<u64>,
}

/// The answer to a query for top crashers.
#[derive(Debug, Drop)]
pub struct Tops {
    /// How many new rows there are.
    pub total: u64,
    /// The first of their signatures, in the order of their ranks.
    pub tops: TopList,
}

/// Ranked signatures, in order.
pub type TopList = Items<Top>;
