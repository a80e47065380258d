//! Throttle rules, as an operator writes them, and what they say of a crash.
use soc_base::{Text, Texts};
use soc_tables::{Fault, Row};
use soc_throttle::RuleSet;
use std::alloc::Global;

/// The rules of a TOML text.
fn rules_of(alloc: Global, text: &str) -> Result<RuleSet, Fault> {
    let table = toml::table_from_str(alloc, text)?;
    match soc_toml::value_at(&table, "rule") {
        Some(rules) => Ok(RuleSet::read(alloc, rules)?),
        None => Err(Fault::new("no rules")),
    }
}

/// Whether rules are read.
pub fn read(alloc: Global, row: &Row<'_>) -> Result<String, Fault> {
    let text = row.text(alloc, "rules")?;
    let _ = rules_of(alloc, text.as_str())?;
    Ok(String::from_str(alloc, "read")?)
}

fn annotations(alloc: Global, row: &Row<'_>) -> Result<Texts, Fault> {
    let mut annotations = Texts::new(alloc);
    for item in row.items(alloc, "annotations")? {
        let (name, value) = item.as_str().split_once('=').unwrap_or((item.as_str(), ""));
        annotations.set(Text::of(alloc, name)?, Text::of(alloc, value)?)?;
    }
    Ok(annotations)
}

/// The rule that decides of a crash, and what it decides.
pub fn verdict(alloc: Global, row: &Row<'_>) -> Result<String, Fault> {
    let rules = match row.optional(alloc, "rules")? {
        Some(text) => rules_of(alloc, text.as_str())?,
        None => RuleSet::accept_all(alloc)?,
    };
    verdict_by(alloc, &rules, row)
}

fn verdict_by(alloc: Global, rules: &RuleSet, row: &Row<'_>) -> Result<String, Fault> {
    let annotations = annotations(alloc, row)?;
    let verdict = rules.verdict(&annotations, row.number("draw")?);
    Ok(format!(in alloc; "{} {:?}", verdict.rule, verdict.outcome)?)
}
