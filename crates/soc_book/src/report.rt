//! The entries of reports that are kept for later runs: an id, a digest and a row's text.
ghost use Rattle.std.specs.Prelude.{◌≡◌, ◌↔◌, ◌+◌, ◌≤◌, ◌++◌, length, IsTrue, IfOk, IfErr, OnOk, option_map};
ghost use Rattle.std.specs.List.{AllByRecursion};
ghost use Rattle.soc_raw.specs.Refusals.{Refuses};
ghost use Rattle.soc_journal.specs.Entries.{max_body};
ghost use Rattle.soc_schema.specs.RowText.{HasText, IsShort, row_text};
ghost use Rattle.soc_schema.specs.Rows.{value_of};
ghost use Rattle.soc_schema.specs.declared.value.Value.TheVariants.{Text as TextValue};
ghost use Rattle.soc_desk.specs.Log.{KeptReport, report as kept_report};
ghost use Rattle.soc_desk.specs.State.{body_of, entry_of};
ghost use Rattle.soc_schema.specs.Fields.{product_field};
ghost use Rattle.soc_book.specs.inner.Books.{IsReport, IsRowFor, made_of};

use soc_base::{Bytes, NoMemory, SharedText};
use soc_journal::{EntryText, REPORT};
use soc_raw::{CrashId, RecordError};
use soc_schema::{Field, Row, Value};
use std::alloc::Global;

const ID_BYTES: usize = 36;

/// How many bytes stand before the row.
pub(crate) const HEAD: usize = 68;

/// A report that was kept.
#[derive(Debug, Drop)]
pub(crate) struct Report<'b> {
    pub(crate) id: CrashId,
    /// What names the lists and symbols that it was made by.
    pub(crate) digest: &'b [u8],
    pub(crate) row: Row,
}

impl<'b> Report<'b> {
    /// The report of an entry's body.
    pub(crate) fn read(alloc: Global, body: &'b [u8]) -> Result<Report<'b>, RecordError>
        ensures ok { IfOk result (λ report. IsReport (made_of report) body.now) }
        ensures only { IfOk result (λ report. (made : KeptReport) → IsReport made body.now
            → made ≡ made_of report) }
        ensures bad { IfErr result (λ error.
            Refuses error ((made : KeptReport) → ¬ (IsReport made body.now))) }
    {
        if body.len() < HEAD {
            return Err(RecordError::BadRecord);
        }
        let Some(id) = CrashId::of_bytes(&body[..ID_BYTES]) else {
            return Err(RecordError::BadRecord);
        };
        let row = Row::decode(alloc, &body[HEAD..])?;
        Ok(Report {
            id,
            digest: &body[ID_BYTES..HEAD],
            row,
        })
    }
}

/// The entry of a report.
pub(crate) fn report_text(
    alloc: Global,
    id: CrashId,
    digest: &[u8; 32],
    row: &Row,
) -> Result<EntryText, NoMemory>
    requires short { AllByRecursion (λ c. IsShort c.value) row.now }
    requires fits { HEAD + length (row_text row.now) ≤ max_body }
    ensures entry { IfOk result (λ entry. entry
        ≡ entry_of (kept_report record { id = id; digest = digest.now; row = row.now })) }
    ensures sized { IfOk result (λ entry. length entry.body ≡ HEAD + length (row_text row.now)) }
    ensures has_text { OnOk result (HasText row.now (row_text row.now)) }
{
    let body = report_body(alloc, id, digest, row)?;
    EntryText::new(alloc, REPORT, body.as_slice())
}

fn report_body(alloc: Global, id: CrashId, digest: &[u8; 32], row: &Row) -> Result<Bytes, NoMemory>
    requires short { AllByRecursion (λ c. IsShort c.value) row.now }
    requires fits { HEAD + length (row_text row.now) ≤ max_body }
    ensures body { IfOk result (λ body. body ≡ id ++ (digest.now ++ row_text row.now)) }
    ensures sized { IfOk result (λ body. length body ≡ HEAD + length (row_text row.now)) }
    ensures has_text { OnOk result (HasText row.now (row_text row.now)) }
{
    let text = row.encode(alloc)?;
    let mut body = Vec::with_capacity(alloc, HEAD + text.as_slice().len())?;
    body.extend_from_slice(id.as_str().as_bytes())?;
    body.extend_from_slice(digest)?;
    body.extend_from_slice(text.as_slice())?;
    Ok(Bytes::from(body))
}

/// Whether a row has an id as `uuid`, and a product as `product` or none where there is none.
pub(crate) fn tells(row: &Row, id: CrashId, product: &Option<SharedText>) -> bool
    ensures { IsTrue result ↔ IsRowFor id product.now row.now }
{
    has_text(row, Field::UUID, Some(id.as_str())) && has_product(row, product)
}

/// The row, whose product shares the memory of this one where it is the same.
pub(crate) fn with_product(mut row: Row, product: &Option<SharedText>) -> Row
    ensures { result ≡ row }
{
    if let Some(product) = product {
        row.unite(Field::PRODUCT, product);
    }
    row
}

/// Whether a row has this product, or none where there is none.
fn has_product(row: &Row, product: &Option<SharedText>) -> bool
    ensures { IsTrue result ↔ (value_of row.now product_field ≡ option_map TextValue product.now) }
{
    match product {
        Some(product) => has_text(row, Field::PRODUCT, Some(product.as_str())),
        None => has_text(row, Field::PRODUCT, None),
    }
}

/// Whether a row has this text, or lacks the field where there is none.
fn has_text(row: &Row, field: Field, text: Option<&str>) -> bool
    ensures { IsTrue result ↔ (value_of row.now field
        ≡ option_map (λ text. TextValue text.now) text.entry) }
{
    match (row.get(field), text) {
        (Some(Value::Text(value)), Some(text)) => value.as_str() == text,
        (None, None) => true,
        _ => false,
    }
}
