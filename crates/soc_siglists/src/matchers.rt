//! Lists that can be asked again and again.
ghost use Rattle.std.specs.Prelude.{◌≡◌, IfOk};
ghost use Rattle.std.specs.List.{position};
ghost use Rattle.soc_siglists.specs.Lists.{ListTexts, matches_one, is_irrelevant, is_prefix, is_sentinel};

use crate::led::{LedMatcher, LedPattern};
use crate::patterns::PatternMatchers;
use regex_vm::Backtracker;
use soc_base::{NoMemory, TextList};
use std::alloc::Global;
use std::marker::Model;

/// What asks each of the patterns.
pub fn matchers_of(alloc: Global, patterns: &[LedPattern]) -> Result<Vec<LedMatcher<'_>>, NoMemory>
    ensures { IfOk result (λ matchers. matchers.items ≡ patterns.now) }
{
    let mut matchers = Vec::with_capacity(alloc, patterns.len())?;
    for pattern in patterns {
        matchers.push(pattern.matcher())?;
    }
    Ok(matchers)
}

/// Whether one of the patterns matches where the frame begins.
pub fn matches_one(
    alloc: Global,
    backtracker: &mut Backtracker,
    matchers: &mut [LedMatcher<'_>],
    frame: &str,
) -> Result<bool, NoMemory>
    ensures value { IfOk result (λ is. is ≡ matches_one matchers.old frame.now) }
    ensures same { matchers.new ≡ matchers.old }
{
    for matcher in matchers.iter_mut() {
        if matcher.matches_start(alloc, backtracker, frame)? {
            return Ok(true);
        }
    }
    Ok(false)
}

/// Where the first frame stands that one of the patterns matches where it begins.
pub fn first_match(
    alloc: Global,
    matchers: &mut PatternMatchers<'_>,
    frames: &TextList,
) -> Result<Option<usize>, NoMemory>
    ensures { IfOk result (λ place. place ≡ position (matches_one matchers.old) frames.now) }
{
    for place in 0..frames.len() {
        if matchers.match_one(alloc, frames.at(place))? {
            return Ok(Some(place));
        }
    }
    Ok(None)
}

/// Lists, ready to be asked of many frames. Contracts see the texts of the patterns.
#[derive(Drop)]
pub struct ListMatchers<'a> {
    irrelevant: PatternMatchers<'a>,
    prefix: PatternMatchers<'a>,
    sentinel: PatternMatchers<'a>,
}

impl<'a> Model for ListMatchers<'a> {
    ghost Value = { ListTexts };

    ghost view = { λ m. record {
      irrelevant = m.irrelevant;
      prefix = m.prefix;
      sentinel = m.sentinel;
    } };
}

impl<'a> ListMatchers<'a> {
    pub(crate) fn of(
        irrelevant: PatternMatchers<'a>,
        prefix: PatternMatchers<'a>,
        sentinel: PatternMatchers<'a>,
    ) -> ListMatchers<'a>
        ensures { result ≡ record {
          irrelevant = irrelevant.entry;
          prefix = prefix.entry;
          sentinel =
              sentinel.entry;
        } }
    {
        ListMatchers {
            irrelevant,
            prefix,
            sentinel,
        }
    }

    /// Whether a pattern of the irrelevant list matches where the frame begins.
    pub fn is_irrelevant(&mut self, alloc: Global, frame: &str) -> Result<bool, NoMemory>
        ensures value { IfOk result (λ is. is ≡ is_irrelevant self.old frame.now) }
        ensures same { self.new ≡ self.old }
    {
        self.irrelevant.match_one(alloc, frame)
    }

    /// Whether a pattern of the prefix list matches where the frame begins.
    pub fn is_prefix(&mut self, alloc: Global, frame: &str) -> Result<bool, NoMemory>
        ensures value { IfOk result (λ is. is ≡ is_prefix self.old frame.now) }
        ensures same { self.new ≡ self.old }
    {
        self.prefix.match_one(alloc, frame)
    }

    /// Whether a sentinel matches where the frame begins.
    pub fn is_sentinel(&mut self, alloc: Global, frame: &str) -> Result<bool, NoMemory>
        ensures value { IfOk result (λ is. is ≡ is_sentinel self.old frame.now) }
        ensures same { self.new ≡ self.old }
    {
        self.sentinel.match_one(alloc, frame)
    }
}
