//! What the answer to a query has.
use soc_base::Items;
use soc_schema::{Field, Row, Value};

/// Fields in the order of the table.
pub type Fields = Items<Field>;

/// Rows that have the asked columns.
pub type Hits = Items<Row>;

/// Facets in the order of their fields.
pub type Facets = Items<Facet>;

/// Terms, greater counts first and then lesser values.
pub type Terms = Items<Term>;

/// A value and how many of the rows have it.
#[derive(Debug, Drop)]
pub struct Term {
    /// The value.
    pub value: Value,
    /// How many rows, at least 1.
    pub count: u64,
}

/// The values of a field in the rows.
#[derive(Debug, Drop)]
pub struct Facet {
    /// The field.
    pub field: Field,
    /// Its values.
    pub terms: Terms,
}

/// The answer to a query.
#[derive(Debug, Drop)]
pub struct Answer {
    /// How many rows the query asks for, hits or not.
    pub total: u64,
    /// The columns that were asked.
    pub columns: Fields,
    /// The rows from the offset on, as many as were asked.
    pub hits: Hits,
    /// The facets that were asked.
    pub facets: Facets,
}
