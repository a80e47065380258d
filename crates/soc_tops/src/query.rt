//! What a list of top crashers is asked for.
ghost use Rattle.std.specs.Prelude.{◌≡◌, Ok, IfErr, IfOk};
ghost use Rattle.soc_tops.specs.Asked.{IsRefusal, needed, query_of, range_of, whole};

use crate::error::TopsError;
use crate::given::{Given, bad};
use soc_base::{Pairs, Text};
use soc_schema::Caller;
use std::alloc::Global;
use std::cmp::Ordering;

/// A range of days, each `YYYY-MM-DD`, with both its ends.
#[derive(Debug, Drop)]
pub struct Days {
    /// The first day.
    pub from: Text,
    /// The last day.
    pub to: Text,
}

/// What a list of top crashers is asked for.
#[derive(Debug, Drop)]
pub struct TopsQuery {
    /// Who asks.
    pub caller: Caller,
    /// The product whose rows are counted.
    pub product: Text,
    /// Its version.
    pub version: Text,
    /// The days whose signatures are listed.
    pub days: Days,
    /// The days that they are compared with.
    pub old_days: Days,
    /// How many signatures are listed at most, from 1 to 1,000.
    pub limit: u64,
}

impl TopsQuery {
    /// The query that the pairs of a caller are. `BadParameter` names the first pair that has another name, repeats
    /// one or has a bad value; else the first missing one of `product`, `version`, `from`, `to`, `old_from` and
    /// `old_to`; else `from` where it is after `to`, or `old_from` where it is after `old_to`.
    #[tactic(auto, using(crate::proofs::ReadingLemmas::refused_first, crate::proofs::ReadingLemmas::refused_second))]
    pub fn read(alloc: Global, pairs: &Pairs, caller: Caller) -> Result<TopsQuery, TopsError>
        ensures ok { IfOk result (λ query. query_of caller pairs.now ≡ Ok query) }
        ensures refused { IfErr result (IsRefusal (query_of caller pairs.now)) }
    {
        let given = Given::read(alloc, pairs)?;
        whole(alloc, caller, given)
    }
}

/// The query of these parameters.
fn whole(alloc: Global, caller: Caller, given: Given) -> Result<TopsQuery, TopsError>
    ensures ok { IfOk result (λ query. whole caller given ≡ Ok query) }
    ensures refused { IfErr result (IsRefusal (whole caller given)) }
{
    let product = needed(alloc, "product", given.product)?;
    let version = needed(alloc, "version", given.version)?;
    let from = needed(alloc, "from", given.from)?;
    let to = needed(alloc, "to", given.to)?;
    let old_from = needed(alloc, "old_from", given.old_from)?;
    let old_to = needed(alloc, "old_to", given.old_to)?;
    let days = range_of(alloc, "from", from, to)?;
    let old_days = range_of(alloc, "old_from", old_from, old_to)?;
    Ok(TopsQuery {
        caller,
        product,
        version,
        days,
        old_days,
        limit: given.limit.unwrap_or(100),
    })
}

/// A parameter that has to be there.
fn needed(alloc: Global, name: &str, given: Option<Text>) -> Result<Text, TopsError>
    ensures ok { IfOk result (λ text. needed name.now given ≡ Ok text) }
    ensures refused { IfErr result (IsRefusal (needed name.now given)) }
{
    match given {
        Some(text) => Ok(text),
        None => Err(bad(alloc, name)?),
    }
}

/// A range that doesn't end before it begins.
fn range_of(alloc: Global, name: &str, from: Text, to: Text) -> Result<Days, TopsError>
    ensures ok { IfOk result (λ days. range_of name.now from to ≡ Ok days) }
    ensures refused { IfErr result (IsRefusal (range_of name.now from to)) }
{
    if from.as_str().cmp(to.as_str()) == Ordering::Greater {
        return Err(bad(alloc, name)?);
    }
    Ok(Days { from, to })
}
