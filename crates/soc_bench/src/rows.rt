//! Made rows of 36 fields.
use crate::fault::Fault;
use soc_schema::{Field, FieldKind, Row, Value};
use std::alloc::Global;

/// Five of eight crashes are Firefox's.
const PRODUCTS: [&str; 8] = [
    "Firefox",
    "Firefox",
    "Firefox",
    "Firefox",
    "Firefox",
    "Fenix",
    "Thunderbird",
    "Focus",
];

/// How rows are made.
#[derive(Clone, Copy)]
pub struct Rows<'a> {
    /// Whether they are like the first one but for their ids.
    pub alike: bool,
    /// What most of their texts begin with.
    pub front: &'a str,
}

impl Rows<'_> {
    /// The row of a number, with a value of each field. Rows of different numbers have different ids.
    pub fn row(&self, alloc: Global, number: u64) -> Result<Row, Fault> {
        let values = if self.alike { 0 } else { number };
        row_of(alloc, number, values, self.front)
    }
}

/// A row with the id of one number and the other values of another.
fn row_of(alloc: Global, id: u64, number: u64, front: &str) -> Result<Row, Fault> {
    let mut row = Row::new(alloc);
    for place in 0..Field::COUNT {
        let field = Field::at(place);
        match field.kind() {
            FieldKind::Text => {
                let text = made_text(alloc, field.name(), id, number, front)?;
                row.set(field, Value::text(alloc, text.as_str())?)?;
            }
            FieldKind::Number => row.set(field, Value::Number(made_number(number)))?,
            FieldKind::Flag => row.set(field, Value::Flag(number % 3 == 0))?,
        }
    }
    Ok(row)
}

/// One of 50,000 numbers.
fn made_number(number: u64) -> u64 {
    number.wrapping_mul(2_654_435_761) % 50_000
}

/// The text of a field: one of 8 products, a second of 28 days, or behind the front one of 20,000 signatures or 300 texts.
fn made_text(
    alloc: Global,
    field: &str,
    id: u64,
    number: u64,
    front: &str,
) -> Result<String, Fault> {
    let mixed = number.wrapping_mul(0x9E37_79B9_7F4A_7C15) >> 20;
    Ok(match field {
        "uuid" => made_id(alloc, id)?,
        "product" => String::from_str(alloc, PRODUCTS[(mixed % 8) as usize])?,
        "date" => made_date(alloc, mixed)?,
        "signature" => format!(in alloc; "{front}mozilla::Thing{}::Run", mixed % 20_000)?,
        _ => format!(in alloc; "{front}{field} {}", mixed % 300)?,
    })
}

/// The id of a crash. Ids of numbers in order are in none.
fn made_id(alloc: Global, number: u64) -> Result<String, Fault> {
    let mixed = number.wrapping_mul(2_654_435_761) % 4_294_967_296;
    Ok(format!(in alloc; "{mixed:08x}-0000-4000-8000-000000160918")?)
}

/// A second of November 2026.
fn made_date(alloc: Global, mixed: u64) -> Result<String, Fault> {
    let day = mixed % 28 + 1;
    let hour = mixed / 28 % 24;
    let minute = mixed / 672 % 60;
    let second = mixed / 40_320 % 60;
    Ok(format!(in alloc; "2026-11-{day:02}T{hour:02}:{minute:02}:{second:02}Z")?)
}
