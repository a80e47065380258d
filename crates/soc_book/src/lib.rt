//! A desk over a journal on a disk.
#![tactic(auto)]

mod asks;
mod book;
mod commands;
mod counts;
mod ids;
mod keep;
mod lookup;
mod opening;
mod prepared;
mod reads;
mod report;
mod submission;
mod submit;
mod together;
mod turns;
mod writes;

pub use book::Book;
pub use opening::Restored;
pub use prepared::Prepared;
