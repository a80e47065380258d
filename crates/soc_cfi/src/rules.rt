//! The rules in force at an offset.
ghost use Rattle.std.specs.Prelude.{◌≡◌, ◌<◌, ℕ, length, vec_len, IfOk, IfSome, slice_get};
ghost use Rattle.std.specs.Option.{option_copied, option_or};
ghost use Rattle.soc_symfile.specs.Views.{span_of};
ghost use Rattle.soc_cfi.specs.Rules.{delta_rule, rule_of, rules_at};

use crate::texts::{find_rule, with_rules};
use soc_base::NoMemory;
use soc_symfile::CfiSpan;
use std::alloc::Global;

/// The rules in force at an offset of a module: those of the INIT that covers it, replaced by those
/// of each of its deltas at or below the offset, in the order of the file. Contracts see them as
/// `in_force`, a list in which of two rules for one register the later counts.
#[derive(Clone, Copy, Debug)]
pub struct Rules<'a> {
    span: CfiSpan<'a>,
    offset: u64,
}

impl<'a> Rules<'a> {
    ghost use Rattle.soc_cfi.specs.Views.{in_force, name_at, rule_at};

    /// The rules at an offset, which counts from the module's address on as the symbol file's
    /// addresses do.
    pub fn at(span: CfiSpan<'a>, offset: u64) -> Rules<'a>
        ensures { in_force result ≡ rules_at (span_of span.entry) offset }
    {
        Rules { span, offset }
    }

    /// The rule of a register, by its name as the rules have it (`$rsp`, `.cfa`, `.ra`): what stands
    /// between the space behind the name and the space before the next name.
    pub fn rule(&self, register: &str) -> Option<&'a str>
        ensures { option_copied result ≡ rule_of (in_force self.now) register.now }
    {
        for i in (0..self.span.deltas()).rev() {
            if let Some(rule) = self.rule_of_delta(i, register) {
                return Some(rule);
            }
        }
        find_rule(self.span.init(), register)
    }

    /// The rules of several registers, each the one that `rule` gives, in one pass through the
    /// texts.
    pub fn all(&self, alloc: Global, names: &[&str]) -> Result<Vec<Option<&'a str>>, NoMemory>
        ensures len { IfOk result (λ rules. vec_len rules ≡ length names.now) }
        ensures each { IfOk result (λ rules. (i : ℕ) → i < length names.now
            → rule_at rules.items i ≡ rule_of (in_force self.now) (name_at names.now i)) }
    {
        let none = vec![in alloc; None; names.len()]?;
        let mut found = with_rules(none, names, self.span.init());
        for i in 0..self.span.deltas() {
            found = self.with_delta(found, names, i);
        }
        Ok(found)
    }

    /// The rules that were found, with those of a delta, where the delta is in force.
    fn with_delta(
        &self,
        found: Vec<Option<&'a str>>,
        names: &[&str],
        i: usize,
    ) -> Vec<Option<&'a str>>
        requires inside { i < length (span_of self.now.span).deltas }
        requires len { vec_len found ≡ length names.now }
        ensures len { vec_len result ≡ length names.now }
        ensures each { (k : ℕ) → k < length names.now
            → IfSome (slice_get (span_of self.now.span).deltas i)
            (λ delta. rule_at result.items k
            ≡ option_or (delta_rule self.now.offset delta (name_at names.now k))
            (rule_at found.entry.items k)) }
    {
        let (address, text) = self.span.delta(i);
        if address <= self.offset {
            with_rules(found, names, text)
        } else {
            found
        }
    }

    /// The rule that a delta has for a register, where the delta is in force.
    fn rule_of_delta(&self, i: usize, register: &str) -> Option<&'a str>
        requires { i < length (span_of self.now.span).deltas }
        ensures { IfSome (slice_get (span_of self.now.span).deltas i)
            (λ delta. option_copied result ≡ delta_rule self.now.offset delta register.now) }
    {
        let (address, text) = self.span.delta(i);
        if self.offset < address {
            return None;
        }
        find_rule(text, register)
    }
}
