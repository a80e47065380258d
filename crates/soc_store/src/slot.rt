// What stands in a block for a value.
ghost use Rattle.std.specs.Prelude.{◌≡◌, ◌↔◌, IsTrue, [], None, Some, OnOk, OnErr, IfOk, length};
ghost use Rattle.soc_schema.specs.Orders.{value_cmp};
ghost use Rattle.soc_store.specs.inner.Keys.{key_of};
ghost use Rattle.soc_store.specs.inner.Postings.{posted, shrunk};

use crate::key::key_of;
use crate::order::compare_values;
use crate::term::Term;
use soc_base::NoMemory;
use soc_schema::Value;
use std::alloc::Global;
use std::cmp::Ordering;
use std::marker::Model;

/// A value's term, with its key and its number of rows beside it, so that a search or a facet seldom looks behind the
/// box.
#[derive(Debug, Drop)]
pub(crate) struct Slot {
    key: u64,
    count: usize,
    term: Box<Term>,
}

impl Model for Slot {
    ghost use Rattle.std.specs.Prelude.{◌≡◌, length};
    ghost use Rattle.soc_store.specs.inner.Keys.{key_of};
    ghost use Rattle.soc_store.specs.inner.Postings.{Posting};

    ghost Value = { Posting };

    ghost view = { λ s. s.term.value };

    ghost invariant = { λ s. (s.key ≡ key_of s.term.value.value)
        × (s.count ≡ length s.term.value.places) };
}

impl Slot {
    /// The value with one row.
    pub(crate) fn new(alloc: Global, value: &Value, place: u32) -> Result<Slot, NoMemory>
        ensures { IfOk result (λ slot. slot
            ≡ posted value.now place None) }
    {
        let term = Box::new(alloc, Term::new(alloc, value, place)?)?;
        let count = term.places().len();
        Ok(Slot {
            key: key_of(value),
            count,
            term,
        })
    }

    /// One more row that has the value.
    pub(crate) fn add(&mut self, place: u32) -> Result<(), NoMemory>
        ensures ok { OnOk result (self.new
            ≡ posted self.old.value place (Some self.old)) }
        ensures err { OnErr result (self.new ≡ self.old) }
    {
        let term: &mut Term = &mut self.term;
        term.add(place)?;
        self.count = self.term.places().len();
        Ok(())
    }

    /// One row less that has the value. Answers whether none is left.
    pub(crate) fn remove(&mut self, place: u32) -> bool
        ensures left { self.new ≡ shrunk place self.old }
        ensures none { IsTrue result ↔ (self.new.places ≡ []) }
    {
        let term: &mut Term = &mut self.term;
        let none = term.remove(place);
        self.count = self.term.places().len();
        none
    }

    /// How its value compares with another one, whose key is given.
    pub(crate) fn compare(&self, key: u64, value: &Value) -> Ordering
        requires { key ≡ key_of value.now }
        ensures { result ≡ value_cmp self.now.value value.now }
    {
        if self.key < key {
            Ordering::Less
        } else if key < self.key {
            Ordering::Greater
        } else {
            compare_values(self.term.value(), value)
        }
    }

    /// How many rows have the value.
    pub(crate) fn count(&self) -> usize
        ensures { result ≡ length self.now.places }
    {
        self.count
    }

    /// What is kept of the value.
    pub(crate) fn term(&self) -> &Term
        ensures { result.now ≡ self.now }
    {
        &self.term
    }
}
