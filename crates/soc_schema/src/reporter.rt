//! What makes a row of a raw crash.
ghost use Rattle.std.specs.Prelude.{◌≡◌, OnOk};
ghost use Rattle.std.specs.Option.{option_copied};
ghost use Rattle.soc_raw.specs.RawCrash.{crash_of};
ghost use Rattle.soc_schema.specs.Reports.{product_of};
ghost use Rattle.soc_schema.specs.Fields.{kind_of};
ghost use Rattle.soc_schema.specs.Rows.{with_value};
ghost use Rattle.soc_schema.specs.declared.value.Value.{Value};
ghost use Rattle.soc_schema.specs.declared.field.FieldKind.TheVariants.{Text as Words};

use crate::field::Field;
use crate::row::Row;
use crate::value::Value;
use soc_base::NoMemory;
use soc_raw::RawCrash;
use std::alloc::Global;

/// What makes a row of a raw crash. Equal reporters make equal rows.
pub trait Reporter {
    ghost use Rattle.std.specs.Prelude.{◌≡◌, List, ℕ, Option, IfOk};
    ghost use Rattle.soc_raw.specs.Record.{Crash};
    ghost use Rattle.soc_raw.specs.RawCrash.{crash_of};
    ghost use Rattle.soc_schema.specs.declared.value.Cell.{Cell};
    ghost use Rattle.soc_schema.specs.Reports.{TellsCrash};

    // The row of each raw crash.
    ghost row_of: { Self → Crash → List Cell };

    // The digest of what the rows are made by, where there is one.
    ghost digest_of: { Self → Option (List ℕ) };

    /// The row of a raw crash.
    fn row(&self, alloc: Global, raw: &RawCrash) -> Result<Row, NoMemory>
        ensures { IfOk result (λ row. row ≡ row_of self.now (crash_of raw.now)) };

    /// The digest of what the rows are made by. `None` for a reporter that has none.
    fn digest(&self) -> Option<[u8; 32]>
        ensures { result ≡ digest_of self.now };

    // Each row tells of its crash.
    ghost tells: { (reporter : Self) (crash : Crash) → TellsCrash crash (row_of reporter crash) };
}

/// The raw crash's product, where it has one: its annotation `ProductName`.
pub fn product_of(raw: &RawCrash) -> Option<&str>
    ensures { option_copied result ≡ product_of (crash_of raw.now) }
{
    raw.annotations.get("ProductName")
}

/// A reporter without lists and symbols: its rows have `product` and `uuid` alone.
#[derive(Clone, Copy, Debug)]
pub struct Bare;

impl Reporter for Bare {
    ghost use Rattle.std.specs.Prelude.{None};
    ghost use Rattle.soc_schema.specs.Reports.{bare_row, bare_row-tells};

    ghost row_of = { λ _ crash. bare_row crash };

    ghost digest_of = { λ _. None };

    ghost tells = { λ _ crash. bare_row-tells crash };

    #[tactic(auto, unfolding(crate::specs::Fields::kind_of, crate::specs::Fields::field_entry, crate::specs::Fields::field_table))]
    fn row(&self, alloc: Global, raw: &RawCrash) -> Result<Row, NoMemory> {
        let mut row = Row::new(alloc);
        if let Some(product) = product_of(raw) {
            set_text(alloc, &mut row, Field::PRODUCT, product)?;
        }
        set_text(alloc, &mut row, Field::UUID, raw.id.as_str())?;
        Ok(row)
    }

    fn digest(&self) -> Option<[u8; 32]> {
        None
    }
}

/// Gives a field of texts this text.
fn set_text(alloc: Global, row: &mut Row, field: Field, text: &str) -> Result<(), NoMemory>
    requires { kind_of field ≡ Words }
    ensures { OnOk result (row.new ≡ with_value row.old field (Value.Text text.now)) }
{
    row.set(field, Value::text(alloc, text)?)
}
