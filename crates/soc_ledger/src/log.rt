//! The events in order.
ghost use Rattle.std.specs.Prelude.{◌≡◌, ◌+◌, ◌<◌, ◌≤◌, ◌^◌, ◌++◌, ◌∷◌, [], length, OnOk, OnErr};
ghost use Rattle.soc_ledger.specs.Events.{ask_count, has_stop};

use crate::event::Event;
use soc_base::NoMemory;
use std::alloc::Global;
use std::marker::Model;

/// Events, with what is counted of them.
#[derive(Debug, Drop)]
pub(crate) struct Log {
    events: Vec<Event>,
    asks: u64,
    stopped: bool,
}

impl Model for Log {
    ghost use Rattle.std.specs.Prelude.{◌≡◌, ◌-◌, vec_len, vec_capacity};
    ghost use Rattle.soc_ledger.specs.Events.{ask_count, has_stop};
    ghost use Rattle.soc_ledger.specs.inner.Tables.{LogTable};

    ghost Value = { LogTable };

    ghost view = { λ a. record {
      events = a.events.items;
      room = vec_capacity a.events - vec_len
          a.events;
    } };

    ghost invariant = { λ a. (a.asks ≡ ask_count a.events.items)
        × (a.stopped ≡ has_stop a.events.items) };
}

impl Log {
    /// No event.
    pub(crate) fn new(alloc: Global) -> Log
        ensures { result.events ≡ [] }
    {
        Log {
            events: Vec::new(alloc),
            asks: 0,
            stopped: false,
        }
    }

    /// Takes memory for `count` more events.
    pub(crate) fn reserve(&mut self, count: usize) -> Result<(), NoMemory>
        ensures events { self.new.events ≡ self.old.events }
        ensures room { OnOk result (count ≤ self.new.room) }
        ensures kept { self.old.room ≤ self.new.room }
    {
        self.events.reserve(count)?;
        Ok(())
    }

    /// How many events there are.
    pub(crate) fn len(&self) -> u64
        ensures count { result ≡ length self.now.events }
        ensures below { result < 2 ^ 60 }
    {
        let events = self.events.as_slice();
        events.len() as u64
    }

    /// How many of them ask for a crash.
    pub(crate) fn asks(&self) -> u64
        ensures { result ≡ ask_count self.now.events }
    {
        self.asks
    }

    /// Whether there is a stop among them.
    pub(crate) fn is_stopped(&self) -> bool
        ensures { result ≡ has_stop self.now.events }
    {
        self.stopped
    }

    /// One more event.
    pub(crate) fn push(&mut self, event: Event)
        requires { 0 < self.old.room }
        ensures events { self.new.events ≡ self.old.events ++ event ∷ [] }
        ensures room { self.old.room ≤ self.new.room + 1 }
    {
        match event {
            Event::Asked(_) => self.asks += 1,
            Event::Stopped => self.stopped = true,
            _ => {}
        }
        self.events.push(event).unwrap();
    }
}
