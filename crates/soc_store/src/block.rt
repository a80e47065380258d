// A block of a field's values in rising order, each with its places.
ghost use Rattle.std.specs.Prelude.{◌≡◌, ◌<◌, ◌≤◌, ◌++◌, ℕ, List, [], None, Some, OnOk, OnErr, IfOk, length, map, slice_get, option_map};
ghost use Rattle.std.specs.Option.{IfSome, option_copied};
ghost use Rattle.soc_schema.specs.declared.value.Value.{Value};
ghost use Rattle.soc_schema.specs.Orders.{value_cmp};
ghost use Rattle.soc_store.specs.inner.Keys.{key_of};
ghost use Rattle.soc_store.specs.inner.Postings.{Posting, with_posting, without_posting};
ghost use Rattle.soc_schema.specs.Tables.{FindsKey, Rising, at_key};

use crate::key::key_of;
use crate::slot::Slot;
use crate::term::Term;
use soc_base::NoMemory;
use soc_schema::Value;
use std::alloc::Global;
use std::cmp::Ordering;
use std::marker::Model;

/// Some of a field's values, which rise.
#[derive(Debug, Drop)]
pub(crate) struct Block {
    slots: Vec<Slot>,
}

impl Model for Block {
    ghost use Rattle.std.specs.Prelude.{List};
    ghost use Rattle.soc_schema.specs.Orders.{value_cmp};
    ghost use Rattle.soc_store.specs.inner.Postings.{Posting};
    ghost use Rattle.soc_schema.specs.Tables.{Rising};

    ghost Value = { List Posting };

    ghost view = { λ a. a.slots.items };

    ghost invariant = { λ a. Rising (λ t. t.value) value_cmp a.slots.items };
}

impl Block {
    /// No value.
    pub(crate) fn new(alloc: Global) -> Block
        ensures { result ≡ [] }
    {
        Block {
            slots: Vec::new(alloc),
        }
    }

    /// One more row that has the value.
    pub(crate) fn add(&mut self, alloc: Global, value: &Value, place: u32) -> Result<(), NoMemory>
        ensures ok { OnOk result (self.new
            ≡ with_posting (Some value.now) place self.old) }
        ensures err { OnErr result (self.new ≡ self.old) }
    {
        match place_in(self.slots.as_slice(), value) {
            Ok(i) => {
                let slot = &mut self.slots[i];
                slot.add(place)?;
            }
            Err(i) => {
                let slot = Slot::new(alloc, value, place)?;
                self.slots.insert(i, slot)?;
            }
        }
        Ok(())
    }

    /// One row less that has the value.
    pub(crate) fn remove(&mut self, value: &Value, place: u32)
        ensures { self.new ≡ without_posting (Some value.now) place self.old }
    {
        if let Ok(i) = place_in(self.slots.as_slice(), value) {
            let slot = &mut self.slots[i];
            if slot.remove(place) {
                let _ = self.slots.remove(i);
            }
        }
    }

    /// How many values there are.
    pub(crate) fn len(&self) -> usize
        ensures { result ≡ length self.now }
    {
        self.slots.len()
    }

    /// How the first value compares with another one, whose key is given.
    pub(crate) fn compare_first(&self, key: u64, value: &Value) -> Ordering
        requires some { 0 < length self.now }
        requires key { key ≡ key_of value.now }
        ensures { (first : Value) × (slice_get (map (λ t. t.value) self.now) 0 ≡ Some first)
            × (result ≡ value_cmp first value.now) }
    {
        self.slots[0].compare(key, value)
    }

    /// What is kept of the value at `i`.
    pub(crate) fn term_at(&self, i: usize) -> &Term
        requires { i < length self.now }
        ensures { slice_get self.now i ≡ Some result.now }
    {
        self.slots[i].term()
    }

    /// How many rows have the value at `i`.
    pub(crate) fn count_at(&self, i: usize) -> usize
        requires { i < length self.now }
        ensures { IfSome (slice_get self.now i) (λ t. result ≡ length t.places) }
    {
        self.slots[i].count()
    }

    /// Keeps the first half of the values and answers the other one. Where memory is wanting, nothing has changed.
    pub(crate) fn halve(&mut self) -> Result<Block, NoMemory>
        requires { 2 ≤ length self.old }
        ensures halves { IfOk result (λ back. self.old ≡ self.new ++ back) }
        ensures back { IfOk result (λ back. 0 < length back) }
        ensures front { OnOk result (0 < length self.new) }
        ensures err { OnErr result (self.new ≡ self.old) }
    {
        let half = self.slots.len() / 2;
        let slots = self.slots.split_off(half)?;
        Ok(Block { slots })
    }

    /// What is kept of the value, where a row has it.
    pub(crate) fn term(&self, value: &Value) -> Option<&Term>
        ensures { option_copied result ≡ at_key (λ t. t.value) value_cmp value.now self.now }
    {
        match place_in(self.slots.as_slice(), value) {
            Ok(i) => Some(self.slots[i].term()),
            Err(_) => None,
        }
    }
}

/// Where the value stands, or else where it would stand.
fn place_in(slots: &[Slot], value: &Value) -> Result<usize, usize>
    requires { Rising (λ t. t.value) value_cmp slots.now }
    ensures { FindsKey (λ t. t.value) value_cmp value.now slots.now result }
{
    let key = key_of(value);
    let mut low = 0;
    let mut high = slots.len();
    while low < high {
        let middle = low + (high - low) / 2;
        match slots[middle].compare(key, value) {
            Ordering::Less => low = middle + 1,
            Ordering::Equal => return Ok(middle),
            Ordering::Greater => high = middle,
        }
    }
    Err(low)
}
