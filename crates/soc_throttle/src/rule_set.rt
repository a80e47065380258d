//! The rules of a settings file, and the verdict on a crash.
ghost use Rattle.std.specs.Prelude.{◌≡◌, ◌≤◌, length, None, IfOk, OnOk, IfErr, find, option_copied};
ghost use Rattle.toml.specs.View.{view, array_view};
ghost use Rattle.soc_throttle.specs.Refusals.{IsNamed};
ghost use Rattle.soc_throttle.specs.Rules as spec;
ghost use Rattle.soc_throttle.specs.Verdicts as verdicts;

use crate::reading::rule_of;
use crate::rule::{Condition, Outcome, Rule};
use soc_base::{NoMemory, Text, Texts};
use std::alloc::{AllocFailed, Global};
use std::marker::Model;
use thiserror::Error;
use toml::Value;
use toml::value::Array;

/// How many rules a set may have.
const MOST_RULES: usize = 256;

/// Why rules weren't read.
#[derive(Clone, Copy, Debug, PartialEq, Eq, Error)]
pub enum RuleError {
    /// The first entry, from 0, that is no rule. A 257th is none; for a value that is no array it is 0.
    #[error("entry {index} is no throttle rule")]
    BadRule { index: u32 },
    /// An allocation was refused.
    #[error("out of memory")]
    NoMemory,
}

impl From<NoMemory> for RuleError {
    ghost use Rattle.std.specs.Prelude.{◌≡◌};
    ghost use Rattle.soc_throttle.specs.declared.rule_set.RuleError.TheVariants as reason;

    ghost from_gives = { λ _ e. e ≡ reason.NoMemory };

    fn from(_error: NoMemory) -> RuleError {
        RuleError::NoMemory
    }
}

impl<T: Drop> From<AllocFailed<T>> for RuleError {
    ghost use Rattle.std.specs.Prelude.{◌≡◌};
    ghost use Rattle.soc_throttle.specs.declared.rule_set.RuleError.TheVariants as reason;

    ghost from_gives = { λ _ e. e ≡ reason.NoMemory };

    fn from(_error: AllocFailed<T>) -> RuleError {
        RuleError::NoMemory
    }
}

/// What becomes of a crash, and the name of the rule that says so.
#[derive(Clone, Copy, Debug)]
pub struct Verdict<'a> {
    pub rule: &'a str,
    pub outcome: Outcome,
}

/// Throttle rules in order. Contracts see the list of them.
#[derive(Debug, Drop)]
pub struct RuleSet {
    rules: Vec<Rule>,
}

impl Model for RuleSet {
    ghost use Rattle.std.specs.Prelude.{List, ◌≡◌, true};
    ghost use Rattle.soc_throttle.specs.declared.rule.Rule.{Rule};

    ghost Value = { List Rule };

    ghost view = { λ s. s.rules.items };

    ghost use Rattle.soc_throttle.specs.Verdicts.{are_short};

    ghost invariant = { λ s. are_short s.rules.items ≡ true };
}

impl RuleSet {
    /// The rules of an array of tables, as `toml` reads `[[rule]]`.
    pub fn read(alloc: Global, rules: &Value) -> Result<RuleSet, RuleError>
        ensures whole { OnOk result (spec.bad_place (view rules.now) ≡ None) }
        ensures rules { IfOk result (λ set. set ≡ spec.rules_of (view rules.now)) }
        ensures refused { IfErr result (IsNamed (spec.bad_place (view rules.now))) }
    {
        match rules.as_array() {
            Some(entries) => Ok(RuleSet {
                rules: rules_among(alloc, entries)?,
            }),
            None => Err(RuleError::BadRule { index: 0 }),
        }
    }

    /// One rule `accept_all`, which accepts each crash.
    pub fn accept_all(alloc: Global) -> Result<RuleSet, NoMemory>
        ensures { IfOk result (λ set. set ≡ verdicts.accept_all) }
    {
        let mut rules = Vec::new(alloc);
        rules.push(Rule {
            name: Text::of(alloc, "accept_all")?,
            condition: Condition::Always,
            percent: 100,
            outcome: Outcome::Accept,
        })?;
        Ok(RuleSet { rules })
    }

    /// What becomes of a crash with these annotations. All rules use one draw.
    pub fn verdict<'a>(&'a self, annotations: &Texts, draw: u64) -> Verdict<'a>
        ensures verdict { (result.rule.now, result.outcome)
            ≡ verdicts.verdict_of self.now annotations.now draw }
        ensures short { length result.rule.now ≤ 40 }
    {
        match first_deciding(self.rules.as_slice(), annotations, draw) {
            Some(rule) => Verdict {
                rule: rule.name.as_str(),
                outcome: rule.outcome,
            },
            None => Verdict {
                rule: "no_match",
                outcome: Outcome::Reject,
            },
        }
    }
}

fn first_deciding<'a>(rules: &'a [Rule], annotations: &Texts, draw: u64) -> Option<&'a Rule>
    ensures { option_copied result ≡ find (verdicts.decides annotations.now draw) rules.now }
{
    rules.iter().find(|rule| rule.decides(annotations, draw))
}

fn rules_among(alloc: Global, entries: &Array) -> Result<Vec<Rule>, RuleError>
    ensures whole { OnOk result (spec.first_bad 0 (array_view entries.now) ≡ None) }
    ensures rules { IfOk result (λ rules. rules.items ≡ spec.rules_among (array_view entries.now)) }
    ensures refused { IfErr result (IsNamed (spec.first_bad 0 (array_view entries.now))) }
{
    let mut rules = Vec::new(alloc);
    for (place, entry) in entries.iter().enumerate() {
        match rule_at(alloc, place, entry)? {
            Some(rule) => rules.push(rule)?,
            None => return Err(RuleError::BadRule {
                index: place as u32,
            }),
        }
    }
    Ok(rules)
}

fn rule_at(alloc: Global, place: usize, entry: &Value) -> Result<Option<Rule>, NoMemory>
    ensures { IfOk result (λ rule. rule ≡ spec.rule_at place (view entry.now)) }
{
    if place < MOST_RULES {
        rule_of(alloc, entry)
    } else {
        Ok(None)
    }
}
