//! Pages: a report, what a search found, and the top crashers, as documents that a browser shows (HTML Living Standard,
//! section 13.1). Every text that a crash brought is escaped, so none of it can open a tag.
#![tactic(auto)]

mod escape;
mod report;
mod search;
mod tops;

pub use report::report_page;
pub use search::search_page;
pub use tops::tops_page;
