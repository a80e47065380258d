//! The three lists.
ghost use Rattle.std.specs.Prelude.{◌≡◌, ◌≤◌, IfOk, IsErrOf};
ghost use Rattle.soc_edge.specs.Faults.{Rose};
ghost use Rattle.soc_siglists.specs.Lists.{ListTexts, is_irrelevant, is_prefix, sentinel_place};
ghost use Rattle.soc_siglists.specs.Reading.{Gives};

use crate::error::{ListError, ListName};
use crate::maker::Maker;
use crate::matchers::{ListMatchers, first_match};
use crate::patterns::Patterns;
use crate::reading::read_list;
use soc_base::{NoMemory, TextList};
use std::alloc::Global;
use std::marker::Model;

/// Which frames signatures pass over, which they go on behind, and at which they begin. Contracts see the texts of the
/// patterns.
#[derive(Drop)]
pub struct Lists {
    irrelevant: Patterns,
    prefix: Patterns,
    sentinel: Patterns,
}

impl Model for Lists {
    ghost Value = { ListTexts };

    ghost view = { λ l. record {
      irrelevant = l.irrelevant;
      prefix = l.prefix;
      sentinel = l.sentinel;
    } };
}

impl Lists {
    /// Reads three list files: one pattern a line, without the spaces, tabs and carriage returns at its end. Empty
    /// lines and lines that begin with `#` are passed over. The first bad line refuses all.
    pub fn read<P: Maker>(
        alloc: Global,
        maker: &mut P,
        irrelevant: &[u8],
        prefix: &[u8],
        sentinel: &[u8],
    ) -> Result<Lists, ListError>
        ensures reads { Gives result irrelevant.now prefix.now sentinel.now }
        ensures never_fall { P.faults maker.old ≤ P.faults maker.new }
        ensures cause { IsErrOf result ListError.MakerFault
            → Rose (P.faults maker.old) (P.faults maker.new) }
    {
        let irrelevant = read_list(alloc, maker, ListName::Irrelevant, irrelevant)?;
        let prefix = read_list(alloc, maker, ListName::Prefix, prefix)?;
        let sentinel = read_list(alloc, maker, ListName::Sentinel, sentinel)?;
        Ok(Lists {
            irrelevant,
            prefix,
            sentinel,
        })
    }

    /// What asks the lists of many frames. What long frames need is made for the first of them, and kept.
    pub fn matchers(&self, alloc: Global) -> Result<ListMatchers<'_>, NoMemory>
        ensures { IfOk result (λ matchers. matchers ≡ self.now) }
    {
        let irrelevant = self.irrelevant.matchers(alloc)?;
        let prefix = self.prefix.matchers(alloc)?;
        let sentinel = self.sentinel.matchers(alloc)?;
        Ok(ListMatchers::of(irrelevant, prefix, sentinel))
    }

    /// Whether a pattern of the irrelevant list matches where the frame begins.
    pub fn is_irrelevant(&self, alloc: Global, frame: &str) -> Result<bool, NoMemory>
        ensures { IfOk result (λ answer. answer ≡ is_irrelevant self.now frame.now) }
    {
        let mut matchers = self.irrelevant.matchers(alloc)?;
        matchers.match_one(alloc, frame)
    }

    /// Whether a pattern of the prefix list matches where the frame begins.
    pub fn is_prefix(&self, alloc: Global, frame: &str) -> Result<bool, NoMemory>
        ensures { IfOk result (λ answer. answer ≡ is_prefix self.now frame.now) }
    {
        let mut matchers = self.prefix.matchers(alloc)?;
        matchers.match_one(alloc, frame)
    }

    /// Where the first frame stands that a sentinel matches where it begins, counted from 0.
    pub fn sentinel_at(&self, alloc: Global, frames: &TextList) -> Result<Option<usize>, NoMemory>
        ensures { IfOk result (λ place. place ≡ sentinel_place self.now frames.now) }
    {
        let mut matchers = self.sentinel.matchers(alloc)?;
        first_match(alloc, &mut matchers, frames)
    }
}
