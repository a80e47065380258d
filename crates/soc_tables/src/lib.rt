//! Tables of tests in plain text: what a call is given, and what it is to give.
//!
//! A line of a file is the head of a table, or a row of the table above it. A line that begins with a blank continues the
//! line before it, after a blank, or directly where that line ends with `\`. `#` begins a comment. Empty lines say nothing.
//!
//! ```text
//! == Functions of C++: frame(file, function) => text
//!    where line = 1 | module = -
//! a/b.cpp | f(int) const => f
//! ```
//!
//! A head has the title of the table, the call, its columns and the name of what it gives; after `where` come the cells
//! that all rows of the table share. A row has a cell for each column, separated by ` | `, and after ` => ` what is wanted.
//!
//! In a cell `-` is nothing and `""` an empty text. The items of a cell are separated by `;`. `\n`, `\r`, `\t`, `\\` and
//! `\x20` are bytes as in Rust, and `\(ab\*3)` is `ababab`.
#![tactic(auto)]

mod answers;
mod escapes;
mod fault;
mod lines;
mod row;
mod running;

pub use answers::{append, copy, done, number_at, shown, told, word};
pub use escapes::unescape;
pub use fault::Fault;
pub use row::{Row, number_of};
pub use running::{Calls, run};
