//! Which values meet a condition.
ghost use Rattle.std.specs.Prelude.{◌≡◌, ◌↔◌, IsTrue, Contains, None, map, nat_eq};
ghost use Rattle.std.specs.List.{ends_with, list_any, starts_with};
ghost use Rattle.std.specs.Option.{option_copied};
ghost use Rattle.soc_schema.specs.Values.{text_in};
ghost use Rattle.soc_query.specs.Answers.{compares, has_part, is_exact, passes};
ghost use Rattle.soc_search.specs.inner.Runs.{is_run};
ghost use Rattle.soc_search.specs.inner.Selections.{are_met, exact_value, is_met, one_is_met, stands_out};

use soc_query::{Comparison, Condition, Test};
use soc_schema::Value;
use soc_store::compare_values;
use std::cmp::Ordering;

/// Whether the values that compare so with an operand stand in one run of rising values.
pub(crate) fn is_run(how: Comparison) -> bool
    ensures { result ≡ is_run how }
{
    matches!(
        how,
        Comparison::Below
            | Comparison::AtMost
            | Comparison::Above
            | Comparison::AtLeast
            | Comparison::Starts
    )
}

/// Whether the value that a row has of the field, if any, is as the test asks.
fn passes(test: &Test, value: Option<&Value>) -> bool
    ensures { result ≡ passes test.now (option_copied value.entry) }
{
    match test {
        Test::Absent => value.is_none(),
        Test::Compares(how, operand) => match value {
            Some(value) => compares(*how, operand, value),
            None => false,
        },
    }
}

/// Whether a condition asks for one value of its field.
pub(crate) fn is_exact(condition: &Condition) -> bool
    ensures { result ≡ is_exact condition.now }
{
    match &condition.test {
        Test::Absent => false,
        Test::Compares(how, _) => !condition.negated && matches!(how, Comparison::Equals),
    }
}

/// The value that a condition asks for, where it asks for one.
pub(crate) fn exact_value(condition: &Condition) -> Option<&Value>
    ensures { option_copied result ≡ exact_value condition.now }
{
    if condition.negated {
        return None;
    }
    match &condition.test {
        Test::Compares(Comparison::Equals, value) => Some(value),
        _ => None,
    }
}

/// Whether two tests are the same.
fn is_same_test(test: &Test, other: &Test) -> bool
    ensures { IsTrue result ↔ (test.now ≡ other.now) }
{
    match (test, other) {
        (Test::Absent, Test::Absent) => true,
        (Test::Compares(how, operand), Test::Compares(other_how, other_operand)) => {
            how == other_how && compare_values(operand, other_operand) == Ordering::Equal
        }
        _ => false,
    }
}

/// Whether two conditions are the same.
fn is_same(condition: &Condition, other: &Condition) -> bool
    ensures { IsTrue result ↔ (condition.now ≡ other.now) }
{
    condition.field.place() == other.field.place()
        && condition.negated == other.negated
        && is_same_test(&condition.test, &other.test)
}

/// Whether the condition is one of these.
pub(crate) fn is_among(asked: &[&Condition], condition: &Condition) -> bool
    ensures { IsTrue result ↔ Contains (map (λ c. c.now) asked.now) condition.now }
{
    for other in asked {
        if is_same(other, condition) {
            return true;
        }
    }
    false
}

/// Whether a row that has this value of its field, or none, meets a condition.
fn is_met(condition: &Condition, value: Option<&Value>) -> bool
    ensures { result ≡ is_met condition.now (option_copied value.entry) }
{
    passes(&condition.test, value) != condition.negated
}

/// Whether one of the conditions asks for one value of their field.
pub(crate) fn some_exact(asked: &[&Condition]) -> bool
    ensures { result ≡ list_any is_exact (map (λ c. c.now) asked.now) }
{
    for condition in asked {
        if is_exact(condition) {
            return true;
        }
    }
    false
}

/// Whether a row that has this value of the field that the conditions ask about, or none, meets them all. Values that
/// are asked for are alternatives.
pub(crate) fn are_met(asked: &[&Condition], value: Option<&Value>) -> bool
    ensures { result ≡ are_met (map (λ c. c.now) asked.now) (option_copied value.entry) }
{
    let one = one_is_met(asked, value);
    for condition in asked {
        let met = if is_exact(condition) {
            one
        } else {
            is_met(condition, value)
        };
        if !met {
            return false;
        }
    }
    true
}

/// Whether one of the values that are asked for is this one.
fn one_is_met(asked: &[&Condition], value: Option<&Value>) -> bool
    ensures { result ≡ one_is_met (map (λ c. c.now) asked.now) (option_copied value.entry) }
{
    for condition in asked {
        if is_exact(condition) && is_met(condition, value) {
            return true;
        }
    }
    false
}

/// Whether rows with the value meet the conditions otherwise than those without the field do.
pub(crate) fn stands_out(asked: &[&Condition], absent: bool, value: &Value) -> bool
    requires { absent ≡ are_met (map (λ c. c.now) asked.now) None }
    ensures { result ≡ stands_out (map (λ c. c.now) asked.now) value.now }
{
    are_met(asked, Some(value)) != absent
}

/// Whether the value compares so with the operand.
pub(crate) fn compares(how: Comparison, operand: &Value, value: &Value) -> bool
    ensures { result ≡ compares how operand.now value.now }
{
    match how {
        Comparison::Equals => compare_values(operand, value) == Ordering::Equal,
        Comparison::Below => compare_values(value, operand) == Ordering::Less,
        Comparison::AtMost => compare_values(value, operand) != Ordering::Greater,
        Comparison::Above => compare_values(value, operand) == Ordering::Greater,
        Comparison::AtLeast => compare_values(value, operand) != Ordering::Less,
        Comparison::Contains => contains(text_in(operand), text_in(value)),
        Comparison::Starts => starts(text_in(operand), text_in(value)),
        Comparison::Ends => ends(text_in(operand), text_in(value)),
    }
}

/// The text of a value, where it is one.
pub(crate) fn text_in(value: &Value) -> &str
    ensures { result.now ≡ text_in value.now }
{
    match value {
        Value::Text(text) => text.as_str(),
        _ => "",
    }
}

fn contains(part: &str, text: &str) -> bool
    ensures { result ≡ has_part part.now text.now }
{
    text.contains(part)
}

fn starts(part: &str, text: &str) -> bool
    ensures { result ≡ starts_with nat_eq text.now part.now }
{
    text.starts_with(part)
}

fn ends(part: &str, text: &str) -> bool
    ensures { result ≡ ends_with nat_eq text.now part.now }
{
    text.ends_with(part)
}
