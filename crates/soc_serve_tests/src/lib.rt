//! Tests of the service's top call, and of a hall over a book.
#![tactic(auto)]

#[cfg(test)]
mod expect;
#[cfg(test)]
mod hall;
#[cfg(test)]
mod host;
