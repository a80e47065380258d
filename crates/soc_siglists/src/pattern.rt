//! One pattern of a list.
ghost use Rattle.std.specs.Prelude.{◌≡◌, IfOk};
ghost use Rattle.soc_siglists.specs.inner.Automata.{RunsAs};
ghost use Rattle.soc_siglists.specs.inner.Leads.{IsLedBy};

use crate::automaton::automaton_of;
use crate::lead::{Lead, lead_of};
use regex_dfa::Dfa;
use regex_syntax::{Config, Parsed, parse};
use soc_base::{NoMemory, Text};
use std::alloc::Global;
use std::marker::Model;

/// A pattern with its tree. Contracts see its text.
#[derive(Drop)]
pub struct Pattern {
    text: Text,
    parsed: Parsed,
}

impl Model for Pattern {
    ghost use Rattle.std.specs.Prelude.{List, ℕ, map, option_map, string_bytes};
    ghost use Rattle.regex.specs.Patterns.{Reads, default_config};

    ghost Value = { List ℕ };

    ghost view = { λ p. p.text };

    ghost invariant = { λ p. Reads default_config p.text p.parsed.hir (map (option_map string_bytes) p.parsed.names.items) };
}

impl Pattern {
    /// The pattern that a text is. The text was read before, so only memory can be wanting.
    pub fn of(alloc: Global, text: &str) -> Result<Pattern, NoMemory>
        ensures { IfOk result (λ pattern. pattern ≡ text.now) }
    {
        let Ok(parsed) = parse(alloc, text, &Config::default()) else {
            return Err(NoMemory);
        };
        Ok(Pattern {
            text: Text::of(alloc, text)?,
            parsed,
        })
    }

    /// The pattern's text.
    pub fn as_str(&self) -> &str
        ensures { result.now ≡ self.now }
    {
        self.text.as_str()
    }

    /// A text that each match begins with.
    pub fn lead(&self, alloc: Global) -> Result<Lead, NoMemory>
        ensures { IfOk result (IsLedBy self.now) }
    {
        lead_of(alloc, &self.parsed.hir)
    }

    /// The pattern as an automaton.
    pub fn automaton(&self, alloc: Global) -> Result<Dfa, NoMemory>
        ensures { IfOk result (λ dfa. RunsAs self.now dfa.nfa) }
    {
        automaton_of(alloc, &self.parsed)
    }
}
