//! The table that decides who sees what: the fields of a report, the permissions that they need, the tokens that
//! give permissions to a caller, and rows of fields.
#![tactic(auto)]

mod caller;
mod field;
mod json_text;
mod permission;
mod processed;
mod reporter;
mod row;
mod row_text;
mod sight;
mod sources;
mod token;
mod value;

pub use caller::{Caller, ProductNames, Products};
pub use field::{Field, FieldKind};
pub use json_text::{put_comma, put_number, put_row, put_text, put_value, row_json};
pub use permission::{Permission, Permissions};
pub use processed::Processed;
pub use reporter::{Bare, Reporter, product_of};
pub use row::{Cells, Row};
pub use sight::{granted, visible};
pub use token::{Token, TokenError, Tokens};
pub use value::{Cell, Value};
