//! The language of searches: what a caller's pairs ask of rows, and the answer with its JSON.
#![tactic(auto)]

mod answer;
mod condition;
mod draft;
mod error;
mod json;
mod part;
mod query;
mod reading;

pub use answer::{Answer, Facet, Facets, Fields, Hits, Term, Terms};
pub use condition::{Comparison, Condition, Test};
pub use error::QueryError;
pub use part::Sort;
pub use query::Query;
pub use soc_base::Items;
