// What a pair of a query says, or why it is refused.
ghost use Rattle.std.specs.Prelude.{◌≡◌, ℕ, true, false, codes, IfOk, IfErr, Ok, Err, OnErr};
ghost use Rattle.std.specs.Option.{option_copied};
ghost use Rattle.soc_query.specs.declared.error.QueryError.TheVariants as QueryError;
ghost use Rattle.soc_query.specs.Queries.{IsRefusal, compared_to, condition_of, field_of, is_equals, is_for_texts, meets_of, number_of, number_within, operand_of, operators, part_of, sort_of, split_by, stripped};

use crate::condition::{Comparison, Condition, Test};
use crate::error::QueryError;
use crate::part::{Part, Sort};
use soc_base::Text;
use soc_schema::{Caller, Field, FieldKind, Value, granted};
use std::alloc::Global;

/// The most facet values, hits, and hits that are passed over.
const MOST_VALUES: u64 = 10_000;

const MOST_HITS: u64 = 1_000;

const MOST_PASSED: u64 = 65_536;

/// What a pair says, or why it is refused: first an unknown field, then one that isn't granted, then a bad value, then
/// a bad number.
pub(crate) fn read_part(
    alloc: Global,
    caller: &Caller,
    name: &str,
    value: &str,
) -> Result<Part, QueryError>
    ensures ok { IfOk result (λ said. part_of caller.now name.now value.now ≡ Ok said) }
    ensures refused { IfErr result (IsRefusal (part_of caller.now name.now value.now)) }
{
    match name {
        "_facets" => Ok(Part::Facet(named_field(alloc, caller, value)?)),
        "_columns" => Ok(Part::Column(named_field(alloc, caller, value)?)),
        "_sort" => Ok(Part::Sorted(read_sort(alloc, caller, value)?)),
        "_facets_size" => Ok(Part::FacetSize(read_number(alloc, name, value, MOST_VALUES)?)),
        "_results_number" => Ok(Part::Number(read_number(alloc, name, value, MOST_HITS)?)),
        "_results_offset" => Ok(Part::Offset(read_number(alloc, name, value, MOST_PASSED)?)),
        _ => read_meets(alloc, caller, name, value),
    }
}

/// What a pair asks of the field that it names.
#[tactic(auto, using(crate::proofs::ReadingLemmas::refused_first, crate::proofs::ReadingLemmas::refused_second))]
fn read_meets(alloc: Global, caller: &Caller, name: &str, value: &str) -> Result<Part, QueryError>
    ensures ok { IfOk result (λ said. meets_of caller.now name.now value.now ≡ Ok said) }
    ensures refused { IfErr result (IsRefusal (meets_of caller.now name.now value.now)) }
{
    let field = named_field(alloc, caller, name)?;
    Ok(Part::Meets(read_condition(alloc, name, field, value)?))
}

/// The field of the name, which the caller may see.
fn named_field(alloc: Global, caller: &Caller, name: &str) -> Result<Field, QueryError>
    ensures ok { IfOk result (λ field. field_of caller.now name.now ≡ Ok field) }
    ensures refused { IfErr result (IsRefusal (field_of caller.now name.now)) }
{
    let Some(field) = Field::named(name) else {
        let name = Text::of(alloc, name)?;
        return Err(QueryError::UnknownField { name });
    };
    if !granted(caller, field) {
        let name = Text::of(alloc, name)?;
        let permission = field.permission();
        return Err(QueryError::NotGranted { name, permission });
    }
    Ok(field)
}

/// A field, or `-` and a field.
fn read_sort(alloc: Global, caller: &Caller, value: &str) -> Result<Sort, QueryError>
    ensures ok { IfOk result (λ sort. sort_of caller.now value.now ≡ Ok sort) }
    ensures refused { IfErr result (IsRefusal (sort_of caller.now value.now)) }
{
    match strip(value, "-") {
        Some(name) => {
            let field = named_field(alloc, caller, name)?;
            Ok(Sort {
                field,
                falling: true,
            })
        }
        None => {
            let field = named_field(alloc, caller, value)?;
            Ok(Sort {
                field,
                falling: false,
            })
        }
    }
}

/// A number of at most `most`.
fn read_number(alloc: Global, name: &str, value: &str, most: u64) -> Result<u64, QueryError>
    ensures ok { IfOk result (λ number. number_within name.now most value.now ≡ Ok number) }
    ensures refused { IfErr result (IsRefusal (number_within name.now most value.now)) }
{
    let Some(number) = number_of(value) else {
        return Err(bad_number(alloc, name)?);
    };
    if number > most {
        return Err(bad_number(alloc, name)?);
    }
    Ok(number)
}

/// What a value asks of a field.
fn read_condition(
    alloc: Global,
    name: &str,
    field: Field,
    value: &str,
) -> Result<Condition, QueryError>
    ensures ok { IfOk result (λ condition. condition_of name.now field value.now ≡ Ok condition) }
    ensures refused { IfErr result (IsRefusal (condition_of name.now field value.now)) }
{
    if value == "__null__" {
        return Ok(Condition {
            field,
            negated: false,
            test: Test::Absent,
        });
    }
    if value == "!__null__" {
        return Ok(Condition {
            field,
            negated: true,
            test: Test::Absent,
        });
    }
    match strip(value, "!") {
        Some(value) => read_comparison(alloc, name, field, true, value),
        None => read_comparison(alloc, name, field, false, value),
    }
}

/// What stands behind an optional `!`.
fn read_comparison(
    alloc: Global,
    name: &str,
    field: Field,
    negated: bool,
    value: &str,
) -> Result<Condition, QueryError>
    ensures ok { IfOk result (λ condition. compared_to name.now field negated value.now
        ≡ Ok condition) }
    ensures refused { IfErr result (IsRefusal (compared_to name.now field negated value.now)) }
{
    let (how, operand) = split_operator(value);
    let operand = read_operand(alloc, name, field.kind(), how, operand)?;
    Ok(Condition {
        field,
        negated,
        test: Test::Compares(how, operand),
    })
}

/// The operator that a value begins with, or else equals, and the operand behind it.
fn split_operator(value: &str) -> (Comparison, &str)
    ensures { (result.0, result.1.now) ≡ split_by operators value.now }
{
    if let Some(operand) = strip(value, ">=") {
        return (Comparison::AtLeast, operand);
    }
    if let Some(operand) = strip(value, "<=") {
        return (Comparison::AtMost, operand);
    }
    if let Some(operand) = strip(value, ">") {
        return (Comparison::Above, operand);
    }
    if let Some(operand) = strip(value, "<") {
        return (Comparison::Below, operand);
    }
    if let Some(operand) = strip(value, "=") {
        return (Comparison::Equals, operand);
    }
    if let Some(operand) = strip(value, "~") {
        return (Comparison::Contains, operand);
    }
    if let Some(operand) = strip(value, "^") {
        return (Comparison::Starts, operand);
    }
    if let Some(operand) = strip(value, "$") {
        return (Comparison::Ends, operand);
    }
    (Comparison::Equals, value)
}

/// The value that an operand means to a field of the kind.
fn read_operand(
    alloc: Global,
    name: &str,
    kind: FieldKind,
    how: Comparison,
    operand: &str,
) -> Result<Value, QueryError>
    ensures ok { IfOk result (λ value. operand_of name.now kind how operand.now ≡ Ok value) }
    ensures refused { IfErr result (IsRefusal (operand_of name.now kind how operand.now)) }
{
    match kind {
        FieldKind::Text => Ok(Value::text(alloc, operand)?),
        FieldKind::Number => {
            if how.is_for_texts() {
                return Err(bad_value(alloc, name)?);
            }
            match number_of(operand) {
                Some(number) => Ok(Value::Number(number)),
                None => Err(bad_number(alloc, name)?),
            }
        }
        FieldKind::Flag => {
            if !how.is_equals() {
                return Err(bad_value(alloc, name)?);
            }
            match operand {
                "__true__" => Ok(Value::Flag(true)),
                "__false__" => Ok(Value::Flag(false)),
                _ => Err(bad_value(alloc, name)?),
            }
        }
    }
}

fn bad_value(alloc: Global, name: &str) -> Result<QueryError, QueryError>
    ensures ok { IfOk result (λ error. error ≡ QueryError.BadValue name.now) }
    ensures lacking { IfErr result (λ error. error ≡ QueryError.NoMemory) }
{
    let name = Text::of(alloc, name)?;
    Ok(QueryError::BadValue { name })
}

fn bad_number(alloc: Global, name: &str) -> Result<QueryError, QueryError>
    ensures ok { IfOk result (λ error. error ≡ QueryError.BadNumber name.now) }
    ensures lacking { IfErr result (λ error. error ≡ QueryError.NoMemory) }
{
    let name = Text::of(alloc, name)?;
    Ok(QueryError::BadNumber { name })
}

/// The number that 1 to 18 digits write.
fn number_of(text: &str) -> Option<u64>
    ensures { result ≡ number_of text.now }
{
    soc_text::number(text.as_bytes(), 18)
}

/// The text behind the front, where it begins so.
fn strip<'a>(text: &'a str, front: &str) -> Option<&'a str>
    ensures { option_copied result ≡ stripped front.now text.now }
{
    text.strip_prefix(front)
}
