//! The rules that stand in a text.
ghost use Rattle.std.specs.Prelude.{◌≡◌, ◌<◌, ℕ, Some, length, vec_len, false, if◌then◌else◌};
ghost use Rattle.std.specs.Option.{option_copied, option_map_or, option_or};
ghost use Rattle.std.specs.Str.{bytes_eq};
ghost use Rattle.soc_cfi.specs.Rules as spec;
ghost use Rattle.soc_cfi.specs.Views.{name_at, rule_at};
ghost use Rattle.soc_cfi.specs.inner.Texts.{begun_by};
ghost use Rattle.soc_cfi.specs.Words.{parts};

use crate::words::split_part;

/// The register that a part names.
fn named_by(part: &str) -> Option<&str>
    ensures { option_copied result ≡ spec.named_by part.now }
{
    part.strip_suffix(':')
}

/// Whether a part names a register.
fn is_name(part: &str) -> bool
    ensures { result ≡ spec.is_name part.now }
{
    named_by(part).is_some()
}

/// Whether a part names this register.
fn names(part: &str, register: &str) -> bool
    ensures { result ≡ option_map_or (λ name. bytes_eq name register.now)
        (spec.named_by part.now) false }
{
    named_by(part).is_some_and(|name| name == register)
}

/// What stands before the first name, without the space before it; all where no name stands.
fn rule_text(text: &str) -> &str
    ensures { result.now ≡ spec.rule_text (parts text.now) }
{
    let mut rest = text;
    loop {
        let (part, later) = split_part(rest);
        if is_name(part) {
            let place = text.len() - rest.len();
            return &text[..place.saturating_sub(1)];
        }
        let Some(later) = later else {
            return text;
        };
        rest = later;
    }
}

/// The rule of a register in a text, of several the last.
pub fn find_rule<'a>(text: &'a str, register: &str) -> Option<&'a str>
    ensures { option_copied result ≡ spec.rule_of (spec.rules_of text.now) register.now }
{
    let mut found = None;
    let mut rest = text;
    loop {
        let (part, later) = split_part(rest);
        if names(part, register) {
            found = Some(later.unwrap_or(""));
        }
        let Some(later) = later else {
            break;
        };
        rest = later;
    }
    found.map(rule_text)
}

/// The rule of one name: this one, where the name is the register's, or else the one before it.
fn chosen<'a>(register: &str, rule: &'a str, name: &str, before: Option<&'a str>) -> Option<&'a str>
    ensures { option_copied result
        ≡ (if bytes_eq register.now name.now then Some rule.now else option_copied before.entry) }
{
    if register == name { Some(rule) } else { before }
}

/// The rules that were found, with this one for each of the names that is the register's.
fn with_rule<'a>(
    found: Vec<Option<&'a str>>,
    names: &[&str],
    register: &str,
    rule: &'a str,
) -> Vec<Option<&'a str>>
    requires { vec_len found ≡ length names.now }
    ensures len { vec_len result ≡ length names.now }
    ensures each { (i : ℕ) → i < length names.now
        → rule_at result.items i ≡ (if bytes_eq register.now
        (name_at names.now i) then Some rule.now else rule_at found.entry.items i) }
{
    let mut found = found;
    for i in 0..names.len() {
        found[i] = chosen(register, rule, names[i], found[i]);
    }
    found
}

/// The rules that were found, with the one that a part begins, if it is a name.
fn with_part<'a>(
    found: Vec<Option<&'a str>>,
    names: &[&str],
    part: &str,
    later: &'a str,
) -> Vec<Option<&'a str>>
    requires { vec_len found ≡ length names.now }
    ensures len { vec_len result ≡ length names.now }
    ensures each { (i : ℕ) → i < length names.now
        → rule_at result.items i ≡ option_or (begun_by part.now later.now (name_at names.now i))
        (rule_at found.entry.items i) }
{
    let Some(register) = named_by(part) else {
        return found;
    };
    with_rule(found, names, register, rule_text(later))
}

/// The rules that a text has for some registers, each the last of its register; for a register
/// that has none there the rule that was found before.
pub fn with_rules<'a>(
    found: Vec<Option<&'a str>>,
    names: &[&str],
    text: &'a str,
) -> Vec<Option<&'a str>>
    requires { vec_len found ≡ length names.now }
    ensures len { vec_len result ≡ length names.now }
    ensures each { (i : ℕ) → i < length names.now
        → rule_at result.items i ≡ option_or
        (spec.rule_of (spec.rules_of text.now) (name_at names.now i))
        (rule_at found.entry.items i) }
{
    let mut found = found;
    let mut rest = text;
    loop {
        let (part, later) = split_part(rest);
        found = with_part(found, names, part, later.unwrap_or(""));
        let Some(later) = later else {
            break;
        };
        rest = later;
    }
    found
}
