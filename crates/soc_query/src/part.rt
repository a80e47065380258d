//! What one pair of a query says.
use crate::condition::Condition;
use soc_schema::Field;

/// A field that rows are sorted by.
#[derive(Clone, Copy, Debug)]
pub struct Sort {
    /// The field.
    pub field: Field,
    /// Whether greater values come first. Rows without the field come last either way.
    pub falling: bool,
}

/// What one pair says.
#[derive(Debug, Drop)]
pub(crate) enum Part {
    /// Rows meet this.
    Meets(Condition),
    /// Rows are sorted by this.
    Sorted(Sort),
    /// Hits have this field.
    Column(Field),
    /// The values of this field are counted.
    Facet(Field),
    /// How many values a facet has at most.
    FacetSize(u64),
    /// How many hits are given at most.
    Number(u64),
    /// How many hits are passed over.
    Offset(u64),
}
