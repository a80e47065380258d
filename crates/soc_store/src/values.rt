// The values of a row, into the fields' postings and out of them.
ghost use Rattle.std.specs.Prelude.{◌≡◌, ◌<◌, ◌≤◌, ℕ, [], OnOk, OnErr, length, slice_index_or, take};
ghost use Rattle.soc_schema.specs.Rows.{value_of};
ghost use Rattle.soc_store.specs.inner.Postings.{ArePostings, with_posting, without_posting};

use crate::index::Index;
use soc_base::{NoMemory, SharedText};
use soc_schema::{Field, Row, Value};
use std::alloc::Global;

/// Puts a row's values into the postings. Where memory is wanting, they are as they were.
pub(crate) fn add_values(
    alloc: Global,
    fields: &mut [Index],
    row: &Row,
    place: u32,
) -> Result<(), NoMemory>
    requires whole { length fields.old ≡ 36 }
    requires postings { (f : ℕ) → f < 36 → ArePostings (slice_index_or fields.old f []) }
    ensures ok { OnOk result ((f : ℕ) → f < 36
        → slice_index_or fields.new f []
        ≡ with_posting (value_of row.now f) place
        (slice_index_or fields.old f [])) }
    ensures err { OnErr result ((f : ℕ) → f < 36
        → slice_index_or fields.new f [] ≡ slice_index_or fields.old f []) }
{
    for (added, (field, value)) in row.iter().enumerate() {
        let at = usize::from(field.place());
        let index = &mut fields[at];
        if let Err(error) = index.add(alloc, value, place) {
            remove_values(fields, row, added, place);
            return Err(error);
        }
    }
    Ok(())
}

/// Takes the first values of a row out of the postings.
pub(crate) fn remove_values(fields: &mut [Index], row: &Row, count: usize, place: u32)
    requires whole { length fields.old ≡ 36 }
    requires within { count ≤ length row.now }
    ensures { (f : ℕ) → slice_index_or fields.new f []
        ≡ without_posting (value_of (take count row.now) f) place
        (slice_index_or fields.old f []) }
{
    for (field, value) in row.iter().take(count) {
        let at = usize::from(field.place());
        let index = &mut fields[at];
        index.remove(value, place);
    }
}

/// Has a row share the memory of the texts that are known.
pub(crate) fn share_known(fields: &[Index], row: &mut Row)
    requires { length fields.now ≡ 36 }
    ensures { row.new ≡ row.old }
{
    for i in 0..row.len() {
        let (field, value) = row.at(i);
        if let Some(text) = known_text(fields, field, value) {
            row.unite(field, text);
        }
    }
}

/// What is kept of the value, where it is a text that a row has in the field.
pub(crate) fn known_text<'f>(
    fields: &'f [Index],
    field: Field,
    value: &Value,
) -> Option<&'f SharedText>
    requires { length fields.now ≡ 36 }
{
    match fields[usize::from(field.place())].term(value)?.value() {
        Value::Text(text) => Some(text),
        _ => None,
    }
}
