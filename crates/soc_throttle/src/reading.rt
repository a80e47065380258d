//! Reads a rule from a table of a settings file.
ghost use Rattle.std.specs.Prelude.{◌≡◌, IfOk, option_map};
ghost use Rattle.toml.specs.View.{view, table_view};
ghost use Rattle.soc_throttle.specs.Rules as spec;

use crate::rule::{Condition, Outcome, Rule};
use soc_base::{NoMemory, Text};
use soc_toml::{first_other_key, name_at, number_or, text_at, texts_of, value_at};
use std::alloc::Global;
use toml::{Table, Value};

/// How many characters the name of a rule may have.
const LONGEST_NAME: usize = 40;

/// The word that says which condition a rule has.
#[derive(Clone, Copy, Debug, PartialEq, Eq)]
enum Form {
    Always,
    Present,
    Equals,
    Prefix,
    OneOf,
}

#[derive(Drop)]
struct KeyAndValue {
    key: Text,
    value: Text,
}

/// The rule that a value is, or `None` where it is none.
pub fn rule_of(alloc: Global, value: &Value) -> Result<Option<Rule>, NoMemory>
    ensures { IfOk result (λ rule. rule ≡ spec.rule_of (view value.now)) }
{
    match value.as_table() {
        Some(table) => rule_of_table(alloc, table),
        None => Ok(None),
    }
}

fn rule_of_table(alloc: Global, table: &Table) -> Result<Option<Rule>, NoMemory>
    ensures { IfOk result (λ rule. rule ≡ spec.rule_of_table (table_view table.now)) }
{
    match form_at(table) {
        Some(form) => rule_of_form(alloc, form, table),
        None => Ok(None),
    }
}

fn rule_of_form(alloc: Global, form: Form, table: &Table) -> Result<Option<Rule>, NoMemory>
    ensures { IfOk result (λ rule. rule ≡ spec.rule_of_form form (table_view table.now)) }
{
    if has_other_key(form, table) {
        return Ok(None);
    }
    let Some(name) = name_at(table, "name", LONGEST_NAME) else {
        return Ok(None);
    };
    let Some(outcome) = outcome_at(table) else {
        return Ok(None);
    };
    let Some(percent) = number_or(table, "percent", 100, 0, 100) else {
        return Ok(None);
    };
    let Some(condition) = condition_of(alloc, form, table)? else {
        return Ok(None);
    };
    Ok(Some(Rule {
        name: Text::of(alloc, name)?,
        condition,
        percent,
        outcome,
    }))
}

fn has_other_key(form: Form, table: &Table) -> bool
    ensures { result ≡ spec.has_other_key form (table_view table.now) }
{
    match form {
        Form::Always => first_other_key(table, &["form", "name", "percent", "result"]).is_some(),
        Form::Present => first_other_key(
            table,
            &["form", "key", "name", "percent", "result"],
        ).is_some(),
        Form::Equals | Form::Prefix | Form::OneOf => first_other_key(
            table,
            &["form", "key", "name", "percent", "result", "value"],
        )
        .is_some(),
    }
}

fn condition_of(alloc: Global, form: Form, table: &Table) -> Result<Option<Condition>, NoMemory>
    ensures { IfOk result (λ condition. condition ≡ spec.condition_of form (table_view table.now)) }
{
    match form {
        Form::Always => Ok(Some(Condition::Always)),
        Form::Present => present_of(alloc, table),
        Form::Equals => match compared(alloc, table)? {
            Some(KeyAndValue { key, value }) => Ok(Some(Condition::Equals { key, value })),
            None => Ok(None),
        },
        Form::Prefix => match compared(alloc, table)? {
            Some(KeyAndValue { key, value }) => Ok(Some(Condition::Prefix { key, value })),
            None => Ok(None),
        },
        Form::OneOf => one_of(alloc, table),
    }
}

fn present_of(alloc: Global, table: &Table) -> Result<Option<Condition>, NoMemory>
    ensures { IfOk result (λ condition. condition
        ≡ spec.condition_of Form.Present (table_view table.now)) }
{
    match text_at(table, "key") {
        Some(key) => Ok(Some(Condition::Present {
            key: Text::of(alloc, key)?,
        })),
        None => Ok(None),
    }
}

/// The key and the text that a rule compares.
fn compared(alloc: Global, table: &Table) -> Result<Option<KeyAndValue>, NoMemory>
    ensures { IfOk result (λ pair. option_map (λ p. (p.key, p.value)) pair
        ≡ spec.compared (table_view table.now)) }
{
    let Some(key) = text_at(table, "key") else {
        return Ok(None);
    };
    let Some(value) = text_at(table, "value") else {
        return Ok(None);
    };
    Ok(Some(KeyAndValue {
        key: Text::of(alloc, key)?,
        value: Text::of(alloc, value)?,
    }))
}

fn one_of(alloc: Global, table: &Table) -> Result<Option<Condition>, NoMemory>
    ensures { IfOk result (λ condition. condition
        ≡ spec.condition_of Form.OneOf (table_view table.now)) }
{
    let Some(key) = text_at(table, "key") else {
        return Ok(None);
    };
    let Some(value) = value_at(table, "value") else {
        return Ok(None);
    };
    let Some(values) = texts_of(alloc, value)? else {
        return Ok(None);
    };
    Ok(Some(Condition::OneOf {
        key: Text::of(alloc, key)?,
        values,
    }))
}

fn outcome_at(table: &Table) -> Option<Outcome>
    ensures { result ≡ spec.outcome_at (table_view table.now) }
{
    outcome_of(text_at(table, "result")?)
}

fn form_at(table: &Table) -> Option<Form>
    ensures { result ≡ spec.form_at (table_view table.now) }
{
    form_of(text_at(table, "form")?)
}

fn outcome_of(word: &str) -> Option<Outcome>
    ensures { result ≡ spec.outcome_of word.now }
{
    match word {
        "accept" => Some(Outcome::Accept),
        "defer" => Some(Outcome::Defer),
        "reject" => Some(Outcome::Reject),
        _ => None,
    }
}

fn form_of(word: &str) -> Option<Form>
    ensures { result ≡ spec.form_of word.now }
{
    match word {
        "always" => Some(Form::Always),
        "present" => Some(Form::Present),
        "equals" => Some(Form::Equals),
        "prefix" => Some(Form::Prefix),
        "one_of" => Some(Form::OneOf),
        _ => None,
    }
}
