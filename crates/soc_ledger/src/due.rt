//! The due crashes in order.
ghost use Rattle.std.specs.Prelude.{◌≡◌, ◌==◌, ◌+◌, ◌<◌, ◌≤◌, not, [], ℕ, length, filter, slice_get, None, Some, OnOk};
ghost use Rattle.std.specs.Option.{option_map};

use soc_base::NoMemory;
use std::alloc::Global;
use std::collections::VecDeque;
use std::marker::Model;

/// A due crash: the place of the log since which it is due, and its number.
#[derive(Clone, Copy, Debug)]
pub(crate) struct Due {
    since: u64,
    number: u32,
}

/// The due crashes, in rising order of the places since which they are due.
#[derive(Debug, Drop)]
pub(crate) struct Queue {
    due: VecDeque<Due>,
}

impl Model for Queue {
    ghost use Rattle.std.specs.Prelude.{◌-◌};
    ghost use Rattle.std.specs.VecDeque.{deque_len, deque_capacity};
    ghost use Rattle.soc_ledger.specs.inner.Tables.{DueTable, IsInOrder};

    ghost Value = { DueTable };

    ghost view = { λ a. record { due = a.due.items; room = deque_capacity a.due - deque_len a.due } };

    ghost invariant = { λ a. IsInOrder a.due.items };
}

impl Queue {
    ghost use Rattle.soc_ledger.specs.inner.Tables.{AreBefore, queue_after};

    /// No crash is due.
    pub(crate) fn new(alloc: Global) -> Queue
        ensures { result.due ≡ [] }
    {
        Queue {
            due: VecDeque::new(alloc),
        }
    }

    /// Takes memory for `count` more crashes.
    pub(crate) fn reserve(&mut self, count: usize) -> Result<(), NoMemory>
        ensures due { self.new.due ≡ self.old.due }
        ensures room { OnOk result (count ≤ self.new.room) }
        ensures kept { self.old.room ≤ self.new.room }
    {
        self.due.reserve(count)?;
        Ok(())
    }

    /// How many crashes are due.
    pub(crate) fn len(&self) -> usize
        ensures { result ≡ length self.now.due }
    {
        self.due.len()
    }

    /// The number of the due crash at this place, from 0.
    pub(crate) fn at(&self, i: usize) -> u32
        requires { i < length self.now.due }
        ensures { option_map (λ d. d.number) (slice_get self.now.due i) ≡ Some result }
    {
        self.due[i].number
    }

    /// A crash that was due since `before`, where it was due, is due since `after`.
    pub(crate) fn follow(&mut self, number: u32, before: Option<u64>, after: Option<u64>)
        requires room { 0 < self.old.room }
        requires later { (since : ℕ) → before ≡ None → after ≡ Some since
            → AreBefore since self.old.due }
        ensures due { self.new.due ≡ queue_after number before after self.old.due }
        ensures room { self.old.room ≤ self.new.room + 1 }
    {
        match before {
            None => {
                if let Some(since) = after {
                    self.due.push_back(Due { since, number }).unwrap();
                }
            }
            Some(since) => {
                if after.is_none() {
                    self.remove(since);
                }
            }
        }
    }

    /// Takes out the crash that is due since this place.
    fn remove(&mut self, since: u64)
        ensures due { self.new.due ≡ filter (λ d. not (d.since == since)) self.old.due }
        ensures room { self.old.room ≤ self.new.room }
    {
        if let Ok(i) = self.due.binary_search_by_key(&since, |due| due.since) {
            self.due.remove(i);
        }
    }
}
