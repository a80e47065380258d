//! Patterns with the texts that their matches begin with.
ghost use Rattle.std.specs.Prelude.{◌≡◌, false, IfOk, IfSome, IsFalse};
ghost use Rattle.soc_siglists.specs.Patterns.{matches_start};
ghost use Rattle.soc_siglists.specs.inner.Leads.{IsLead};

use crate::automaton::{accepts_any, accepts_long, accepts_short, table_for};
use crate::pattern::Pattern;
use regex_dfa::{Dfa, Forward};
use regex_vm::Backtracker;
use soc_base::{NoMemory, Text};
use std::alloc::Global;
use std::marker::Model;

/// A pattern with a text that each of its matches begins with. Contracts see the pattern's text.
#[derive(Drop)]
pub struct LedPattern {
    text: Text,
    lead: Text,
    automaton: Dfa,
}

impl Model for LedPattern {
    ghost use Rattle.std.specs.Prelude.{List, ℕ};
    ghost use Rattle.soc_siglists.specs.inner.Automata.{RunsAs};
    ghost use Rattle.soc_siglists.specs.inner.Leads.{IsLead};

    ghost Value = { List ℕ };

    ghost view = { λ p. p.text };

    ghost invariant = { λ p. IsLead p.text p.lead × RunsAs p.text p.automaton.nfa };
}

impl LedPattern {
    pub fn of(alloc: Global, pattern: &Pattern, lead: Text) -> Result<LedPattern, NoMemory>
        requires { IsLead pattern.now lead }
        ensures { IfOk result (λ led. led ≡ pattern.now) }
    {
        Ok(LedPattern {
            text: Text::of(alloc, pattern.as_str())?,
            lead,
            automaton: pattern.automaton(alloc)?,
        })
    }

    /// What asks the pattern.
    pub fn matcher(&self) -> LedMatcher<'_>
        ensures { result ≡ self.now }
    {
        LedMatcher {
            text: self.text.as_str(),
            lead: self.lead.as_str(),
            automaton: &self.automaton,
            table: None,
        }
    }
}

/// A pattern that can be asked again and again. The automaton's table is made for the first long frame. Contracts see
/// the pattern's text.
#[derive(Drop)]
pub struct LedMatcher<'a> {
    text: &'a str,
    lead: &'a str,
    automaton: &'a Dfa,
    table: Option<Box<Forward>>,
}

impl<'a> Model for LedMatcher<'a> {
    ghost use Rattle.std.specs.Prelude.{List, ℕ};
    ghost use Rattle.std.specs.Option.{ForSome};
    ghost use Rattle.regex_dfa.specs.Search.{IsForwardFor};
    ghost use Rattle.soc_siglists.specs.inner.Automata.{RunsAs};
    ghost use Rattle.soc_siglists.specs.inner.Leads.{IsLead};

    ghost Value = { List ℕ };

    ghost view = { λ m. m.text.now };

    ghost invariant = { λ m. IsLead m.text.now m.lead.now × RunsAs m.text.now m.automaton.now.nfa
        × ForSome m.table (λ table. IsForwardFor table.value m.automaton.now) };
}

impl<'a> LedMatcher<'a> {
    /// Whether a match may begin where the frame does.
    fn may_match(&self, frame: &str) -> bool
        ensures { IsFalse result → matches_start frame.now self.now ≡ false }
    {
        frame.as_bytes().starts_with(self.lead.as_bytes())
    }

    /// Whether the leftmost match begins where the frame does, unless the frame is long.
    fn match_short(&self, backtracker: &mut Backtracker, frame: &str) -> Option<bool>
        ensures { IfSome result (λ is. is ≡ matches_start frame.now self.now) }
    {
        accepts_short(backtracker, &self.automaton.nfa, frame)
    }

    /// The same, unless the table would grow too large.
    fn match_long(&mut self, alloc: Global, frame: &str) -> Result<Option<bool>, NoMemory>
        ensures value { IfOk result
            (λ found. IfSome found (λ is. is ≡ matches_start frame.now self.old)) }
        ensures same { self.new ≡ self.old }
    {
        let mut table = table_for(alloc, self.table.take(), self.automaton)?;
        let found = accepts_long(&mut table, self.automaton, frame);
        self.table = Some(table);
        Ok(found)
    }

    /// The same, whatever time it takes.
    fn match_any(&self, alloc: Global, frame: &str) -> Result<bool, NoMemory>
        ensures { IfOk result (λ is. is ≡ matches_start frame.now self.now) }
    {
        accepts_any(alloc, &self.automaton.nfa, frame)
    }

    /// Whether the leftmost match begins where the frame does.
    pub fn matches_start(
        &mut self,
        alloc: Global,
        backtracker: &mut Backtracker,
        frame: &str,
    ) -> Result<bool, NoMemory>
        ensures value { IfOk result (λ is. is ≡ matches_start frame.now self.old) }
        ensures same { self.new ≡ self.old }
    {
        if !self.may_match(frame) {
            return Ok(false);
        }
        if let Some(is_start) = self.match_short(backtracker, frame) {
            return Ok(is_start);
        }
        if let Some(is_start) = self.match_long(alloc, frame)? {
            return Ok(is_start);
        }
        self.match_any(alloc, frame)
    }
}
