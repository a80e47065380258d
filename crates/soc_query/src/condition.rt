//! What a pair asks of its field's value.

use soc_schema::{Field, Value};

/// How a value is compared with an operand.
#[derive(Clone, Copy, PartialEq, Eq, Debug)]
pub enum Comparison {
    Equals,
    Below,
    AtMost,
    Above,
    AtLeast,
    Contains,
    Starts,
    Ends,
}

impl Comparison {
    ghost use Rattle.std.specs.Prelude.{◌≡◌};
    ghost use Rattle.soc_query.specs.Queries.{is_equals, is_for_texts};

    /// Whether it looks into a text.
    pub(crate) fn is_for_texts(self) -> bool
        ensures { result ≡ is_for_texts self }
    {
        matches!(
            self,
            Comparison::Contains | Comparison::Starts | Comparison::Ends
        )
    }

    /// Whether it asks for the operand itself.
    pub(crate) fn is_equals(self) -> bool
        ensures { result ≡ is_equals self }
    {
        matches!(self, Comparison::Equals)
    }
}

/// What is asked of a field's value.
#[derive(Debug, Drop)]
pub enum Test {
    /// That there is none.
    Absent,
    /// That it compares so with the operand, which is of the field's kind.
    Compares(Comparison, Value),
}

/// What is asked of a row.
#[derive(Debug, Drop)]
pub struct Condition {
    /// The field whose value is asked.
    pub field: Field,
    /// Whether the opposite is asked, which a row without the field meets where the test wants a value.
    pub negated: bool,
    /// What is asked of the value.
    pub test: Test,
}
