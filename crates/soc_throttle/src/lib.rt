//! Throttle rules: which crashes are kept now, kept for later or rejected, as an operator wrote it down.
#![tactic(auto)]

mod reading;
mod rule;
mod rule_set;

pub use rule::{Condition, Outcome, Rule};
pub use rule_set::{RuleError, RuleSet, Verdict};
