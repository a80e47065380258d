//! Parameters as they are read.
ghost use Rattle.std.specs.Prelude.{◌≡◌, Ok, IfErr, IfOk, OnOk, drop};
ghost use Rattle.soc_tops.specs.declared.error.TopsError.TheVariants as TopsError;
ghost use Rattle.soc_tops.specs.Asked.{IsRefusal, day_of, filled, limit_of, nothing_given, with_pair, with_pairs};

use crate::day::{is_day, limit_of};
use crate::error::TopsError;
use soc_base::{Pairs, Text};
use std::alloc::Global;

/// The parameters so far.
#[derive(Debug, Drop)]
pub(crate) struct Given {
    pub(crate) product: Option<Text>,
    pub(crate) version: Option<Text>,
    pub(crate) from: Option<Text>,
    pub(crate) to: Option<Text>,
    pub(crate) old_from: Option<Text>,
    pub(crate) old_to: Option<Text>,
    pub(crate) limit: Option<u64>,
}

impl Given {
    /// The parameters that the pairs are: each has a known name, which stands once, and a good value.
    #[tactic(auto, using(crate::proofs::ReadingLemmas::pair_read, crate::proofs::ReadingLemmas::pair_refused))]
    pub(crate) fn read(alloc: Global, pairs: &Pairs) -> Result<Given, TopsError>
        ensures ok { IfOk result (λ given. with_pairs nothing_given pairs.now ≡ Ok given) }
        ensures refused { IfErr result (IsRefusal (with_pairs nothing_given pairs.now)) }
    {
        let mut given = Given::new();
        for i in 0..pairs.len() {
            let (name, value) = pairs.at(i);
            given.add(alloc, name, value)?;
        }
        Ok(given)
    }

    /// No parameter.
    fn new() -> Given
        ensures { result ≡ nothing_given }
    {
        Given {
            product: None,
            version: None,
            from: None,
            to: None,
            old_from: None,
            old_to: None,
            limit: None,
        }
    }

    /// One more.
    fn add(&mut self, alloc: Global, name: &str, value: &str) -> Result<(), TopsError>
        ensures ok { OnOk result (with_pair self.old name.entry.now value.entry.now ≡ Ok self.new) }
        ensures refused { IfErr result
            (IsRefusal (with_pair self.old name.entry.now value.entry.now)) }
    {
        match name {
            "product" => fill_text(alloc, &mut self.product, name, value),
            "version" => fill_text(alloc, &mut self.version, name, value),
            "from" => fill_day(alloc, &mut self.from, name, value),
            "to" => fill_day(alloc, &mut self.to, name, value),
            "old_from" => fill_day(alloc, &mut self.old_from, name, value),
            "old_to" => fill_day(alloc, &mut self.old_to, name, value),
            "limit" => fill_limit(alloc, &mut self.limit, name, value),
            _ => Err(bad(alloc, name)?),
        }
    }
}

/// Fills in a text that wasn't there.
fn fill_text(
    alloc: Global,
    into: &mut Option<Text>,
    name: &str,
    value: &str,
) -> Result<(), TopsError>
    ensures ok { OnOk result (filled name.entry.now into.old (Some value.entry.now) ≡ Ok into.new) }
    ensures refused { IfErr result
        (IsRefusal (filled name.entry.now into.old (Some value.entry.now))) }
{
    if into.is_some() {
        return Err(bad(alloc, name)?);
    }
    *into = Some(Text::of(alloc, value)?);
    Ok(())
}

/// Fills in a day that wasn't there.
fn fill_day(
    alloc: Global,
    into: &mut Option<Text>,
    name: &str,
    value: &str,
) -> Result<(), TopsError>
    ensures ok { OnOk result (filled name.entry.now into.old (day_of value.entry.now)
        ≡ Ok into.new) }
    ensures refused { IfErr result
        (IsRefusal (filled name.entry.now into.old (day_of value.entry.now))) }
{
    if into.is_some() || !is_day(value) {
        return Err(bad(alloc, name)?);
    }
    *into = Some(Text::of(alloc, value)?);
    Ok(())
}

/// Fills in a limit that wasn't there.
fn fill_limit(
    alloc: Global,
    into: &mut Option<u64>,
    name: &str,
    value: &str,
) -> Result<(), TopsError>
    ensures ok { OnOk result (filled name.entry.now into.old (limit_of value.entry.now)
        ≡ Ok into.new) }
    ensures refused { IfErr result
        (IsRefusal (filled name.entry.now into.old (limit_of value.entry.now))) }
{
    let limit = limit_of(value);
    if into.is_some() || limit.is_none() {
        return Err(bad(alloc, name)?);
    }
    *into = limit;
    Ok(())
}

/// The refusal of a parameter.
pub(crate) fn bad(alloc: Global, name: &str) -> Result<TopsError, TopsError>
    ensures ok { IfOk result (λ error. error ≡ TopsError.BadParameter name.now) }
    ensures lacking { IfErr result (λ error. error ≡ TopsError.NoMemory) }
{
    let name = Text::of(alloc, name)?;
    Ok(TopsError::BadParameter { name })
}
