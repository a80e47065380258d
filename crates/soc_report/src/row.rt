//! The row of what is known of a crash.
ghost use Rattle.std.specs.Prelude.{◌≡◌, ◌<◌, ◌++◌, ◌∷◌, [], IfOk, IfSome};
ghost use Rattle.std.specs.List.{AllByRecursion};
ghost use Rattle.soc_schema.specs.Fields.{kind_of};
ghost use Rattle.soc_schema.specs.Rows.{kind_of_value};
ghost use Rattle.soc_report.specs.Report.{cells_from, values_of};
ghost use Rattle.soc_report.specs.inner.Known.{known_view};

use crate::known::Known;
use crate::source::Source;
use soc_base::NoMemory;
use soc_schema::{Field, Row, Value};
use std::alloc::Global;

/// Gives a field its value, where there is one.
#[tactic(auto, using(crate::proofs::RowLemmas::behind))]
fn put(row: Row, field: Field, value: Option<Value>) -> Result<Row, NoMemory>
    requires kind { IfSome value (λ v. kind_of_value v ≡ kind_of field) }
    requires below { AllByRecursion (λ c. c.field < field) row }
    ensures { IfOk result (λ more. more ≡ row ++ cells_from field (value ∷ [])) }
{
    let Some(value) = value else {
        return Ok(row);
    };
    let mut row = row;
    row.set(field, value)?;
    Ok(row)
}

/// The row of all fields whose sources give values.
pub fn row_of(alloc: Global, known: &Known<'_>) -> Result<Row, NoMemory>
    ensures { IfOk result (λ row. row ≡ cells_from 0 (values_of (known_view known.now))) }
{
    let mut row = Row::new(alloc);
    for place in 0..Field::COUNT {
        let source = Source::at(place);
        let value = known.value(alloc, source)?;
        row = put(row, Field::at(place), value)?;
    }
    Ok(row)
}
