//! A rule, and whether it decides.
ghost use Rattle.std.specs.Prelude.{◌≡◌};
ghost use Rattle.std.specs.List.{list_any};
ghost use Rattle.std.specs.Str.{bytes_eq};
ghost use Rattle.soc_throttle.specs.Verdicts as spec;

use soc_base::{Text, TextList, Texts};

/// What becomes of a crash.
#[derive(Clone, Copy, Debug, PartialEq, Eq)]
pub enum Outcome {
    /// It is kept and processed.
    Accept,
    /// It is kept, and processed when somebody asks for it.
    Defer,
    /// It is not kept.
    Reject,
}

/// Which crashes a rule is about, by their annotations.
#[derive(Debug, Drop)]
pub enum Condition {
    /// All of them.
    Always,
    /// Those with an annotation of this name.
    Present { key: Text },
    /// Those whose annotation is this text.
    Equals { key: Text, value: Text },
    /// Those whose annotation begins with this text.
    Prefix { key: Text, value: Text },
    /// Those whose annotation is one of these texts.
    OneOf { key: Text, values: TextList },
}

/// One throttle rule.
#[derive(Debug, Drop)]
pub struct Rule {
    /// 1 to 40 of `a` to `z`, digits and `_`.
    pub name: Text,
    pub condition: Condition,
    /// How many in a hundred of these crashes the rule is about, from 0 to 100.
    pub percent: u64,
    pub outcome: Outcome,
}

impl Condition {
    /// Whether crashes with these annotations are meant.
    pub fn holds(&self, annotations: &Texts) -> bool
        ensures { result ≡ spec.holds self.now annotations.now }
    {
        match self {
            Condition::Always => true,
            Condition::Present { key } => annotations.get(key.as_str()).is_some(),
            Condition::Equals { key, value } => match annotations.get(key.as_str()) {
                Some(text) => text == value.as_str(),
                None => false,
            },
            Condition::Prefix { key, value } => match annotations.get(key.as_str()) {
                Some(text) => text.as_bytes().starts_with(value.as_str().as_bytes()),
                None => false,
            },
            Condition::OneOf { key, values } => match annotations.get(key.as_str()) {
                Some(text) => values.contains(text),
                None => false,
            },
        }
    }
}

impl Rule {
    /// Whether the rule decides a crash with these annotations and this draw.
    pub fn decides(&self, annotations: &Texts, draw: u64) -> bool
        ensures { result ≡ spec.decides annotations.now draw self.now }
    {
        self.condition.holds(annotations) && draw % 100 < self.percent
    }
}
