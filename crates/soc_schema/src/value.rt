//! What a field holds.
ghost use Rattle.std.specs.Prelude.{◌≡◌, IfOk};

use crate::field::{Field, FieldKind};
use soc_base::{NoMemory, SharedText};
use std::alloc::Global;

/// The value of a field.
#[derive(Debug, Drop)]
pub enum Value {
    /// A text.
    Text(SharedText),
    /// A whole number below 2^64.
    Number(u64),
    /// True or false.
    Flag(bool),
}

/// A field and its value.
#[derive(Debug, Drop)]
pub struct Cell {
    /// The field.
    pub field: Field,
    /// A value of the field's kind.
    pub value: Value,
}

impl Value {
    ghost use Rattle.std.specs.Prelude.{◌≡◌, IfOk};
    ghost use Rattle.soc_schema.specs.Rows.{kind_of_value};
    ghost use Rattle.soc_schema.specs.declared.value.Value.TheVariants.{Text as TextValue};

    /// The kind of the fields that have such values.
    pub fn kind(&self) -> FieldKind
        ensures { result ≡ kind_of_value self.now }
    {
        match self {
            Value::Text(_) => FieldKind::Text,
            Value::Number(_) => FieldKind::Number,
            Value::Flag(_) => FieldKind::Flag,
        }
    }

    /// The text as a value, in memory of its own.
    pub fn text(alloc: Global, text: &str) -> Result<Value, NoMemory>
        ensures { IfOk result (λ value. value ≡ TextValue text.now) }
    {
        Ok(Value::Text(SharedText::of(alloc, text)?))
    }

    /// The same value. A text is shared.
    pub fn share(&self) -> Result<Value, NoMemory>
        ensures { IfOk result (λ value. value ≡ self.now) }
    {
        Ok(match self {
            Value::Text(text) => Value::Text(text.share()?),
            Value::Number(number) => Value::Number(*number),
            Value::Flag(flag) => Value::Flag(*flag),
        })
    }
}

impl Cell {
    ghost use Rattle.std.specs.Prelude.{◌≡◌, IfOk};

    /// The same field and value. A text is shared.
    pub fn share(&self) -> Result<Cell, NoMemory>
        ensures { IfOk result (λ cell. cell ≡ self.now) }
    {
        Ok(Cell {
            field: self.field,
            value: self.value.share()?,
        })
    }
}
