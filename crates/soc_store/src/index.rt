// What is kept of a field: its values in rising order, each with its places.
ghost use Rattle.std.specs.Prelude.{◌≡◌, ◌<◌, [], Some, OnOk, OnErr, length, map, slice_get};
ghost use Rattle.std.specs.Option.{IfSome, option_copied};
ghost use Rattle.soc_schema.specs.Orders.{value_cmp};
ghost use Rattle.soc_store.specs.inner.Postings.{places_in, with_posting, without_posting};
ghost use Rattle.soc_schema.specs.Tables.{at_key};

use crate::parts::{Part, add_value, count_near, part_of, remove_value, term_near, total};
use crate::term::Term;
use soc_base::NoMemory;
use soc_schema::Value;
use std::alloc::Global;
use std::marker::Model;

/// The values of a field, in blocks.
#[derive(Debug, Drop)]
pub(crate) struct Index {
    parts: Vec<Part>,
}

impl Model for Index {
    ghost use Rattle.std.specs.Prelude.{List};
    ghost use Rattle.soc_store.specs.inner.Postings.{Posting};
    ghost use Rattle.soc_store.specs.inner.Parts.{AreParts, postings_in};

    ghost Value = { List Posting };

    ghost view = { λ a. postings_in a.parts.items };

    ghost invariant = { λ a. AreParts a.parts.items };
}

impl Index {
    /// No value.
    pub(crate) fn new(alloc: Global) -> Index
        ensures { result ≡ [] }
    {
        Index {
            parts: Vec::new(alloc),
        }
    }

    /// One more row that has the value.
    pub(crate) fn add(&mut self, alloc: Global, value: &Value, place: u32) -> Result<(), NoMemory>
        ensures ok { OnOk result (self.new
            ≡ with_posting (Some value.now) place self.old) }
        ensures err { OnErr result (self.new ≡ self.old) }
    {
        add_value(alloc, &mut self.parts, value, place)
    }

    /// One row less that has the value.
    pub(crate) fn remove(&mut self, value: &Value, place: u32)
        ensures { self.new ≡ without_posting (Some value.now) place self.old }
    {
        remove_value(&mut self.parts, value, place);
    }

    /// How many values there are.
    pub(crate) fn len(&self) -> usize
        ensures { result ≡ length self.now }
    {
        total(&self.parts)
    }

    /// The value at `i`.
    pub(crate) fn value_at(&self, i: usize) -> &Value
        requires { i < length self.now }
        ensures { slice_get (map (λ t. t.value) self.now) i ≡ Some result.now }
    {
        self.term_near(i, &mut 0).value()
    }

    /// What is kept of the value at `i`. The next one is found at once by what is left in `near`.
    pub(crate) fn term_near(&self, i: usize, near: &mut usize) -> &Term
        requires { i < length self.now }
        ensures value { slice_get (map (λ t. t.value) self.now) i ≡ Some result.now.value }
        ensures found { at_key (λ t. t.value) value_cmp result.now.value self.now
            ≡ Some result.now }
    {
        term_near(&self.parts, i, near)
    }

    /// How many rows have the value at `i`, which is found in the same way.
    pub(crate) fn count_near(&self, i: usize, near: &mut usize) -> usize
        requires { i < length self.now }
        ensures { IfSome (slice_get (map (λ t. t.value) self.now) i)
            (λ v. result ≡ length (places_in (at_key (λ t. t.value) value_cmp v self.now))) }
    {
        count_near(&self.parts, i, near)
    }

    /// What is kept of the value, where a row has it.
    pub(crate) fn term(&self, value: &Value) -> Option<&Term>
        ensures { option_copied result ≡ at_key (λ t. t.value) value_cmp value.now self.now }
    {
        if self.parts.is_empty() {
            return None;
        }
        let k = part_of(&self.parts, value);
        self.parts[k].block.term(value)
    }
}
