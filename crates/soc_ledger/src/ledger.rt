//! The ledger.
ghost use Rattle.std.specs.Prelude.{◌≡◌, ◌-◌, ◌+◌, ◌<◌, ◌≤◌, ◌^◌, ◌++◌, ◌∷◌, [], false, IsTrue, None, length, map, slice_get, MatchOption, Some, OnOk, OnErr};
ghost use Rattle.soc_ledger.specs.Due.{due_ids, is_due};
ghost use Rattle.soc_ledger.specs.Events.{accepted_ids, accepted_in, ask_count, has_stop, held_ids, is_held, was_accepted, withdrawal_count};
ghost use Rattle.soc_ledger.specs.Legal.{IsLegal, IsLegalNext};
ghost use Rattle.soc_ledger.specs.Reported.{report_count};
ghost use Rattle.soc_ledger.specs.State.{id_of, standing_of, with_event};
ghost use Rattle.soc_ledger.specs.inner.Tables.{about};

use crate::crash::{Crash, Filed, Standing};
use crate::crashes::Crashes;
use crate::due::Queue;
use crate::event::Event;
use crate::log::Log;
use soc_base::NoMemory;
use soc_raw::CrashId;
use std::alloc::Global;
use std::marker::Model;

/// A log without contents, with the accepted crashes in order. A crash has a number, counted from 0 in that order.
///
/// It takes memory in `reserve` alone: a call that adds an event needs room for it.
#[derive(Debug, Drop)]
pub struct Ledger {
    log: Log,
    crashes: Crashes,
    due: Queue,
    room: usize,
}

impl Model for Ledger {
    ghost use Rattle.soc_ledger.specs.State.{LedgerState};
    ghost use Rattle.soc_ledger.specs.inner.Tables.{IsLedger};

    ghost Value = { LedgerState };

    ghost view = { λ a. record { log = a.log.events; crashes = a.crashes.filed; room = a.room } };

    ghost invariant = { λ a. IsLedger a.log a.crashes a.due a.room };
}

impl Ledger {
    /// No event.
    pub fn new(alloc: Global) -> Ledger
        ensures { result ≡ record { log = []; crashes = []; room = 0 } }
    {
        Ledger {
            log: Log::new(alloc),
            crashes: Crashes::new(alloc),
            due: Queue::new(alloc),
            room: 0,
        }
    }

    /// How many events there are. Each was legal at its place.
    pub fn front(&self) -> u64
        ensures count { result ≡ length self.now.log }
        ensures below { result < 2 ^ 60 }
        ensures legal { IsLegal self.now.log }
    {
        self.log.len()
    }

    /// How many crashes were accepted, withdrawn or not.
    pub fn accepted(&self) -> u32
        ensures count { result ≡ length self.now.crashes }
        ensures ids { map (λ crash. crash.id) self.now.crashes ≡ accepted_ids self.now.log }
    {
        self.crashes.len()
    }

    /// How many crashes are held.
    pub fn held(&self) -> u32
        ensures { result ≡ length (held_ids self.now.log) }
    {
        self.crashes.len() - self.crashes.withdrawn()
    }

    /// How many crashes were withdrawn.
    pub fn withdrawn(&self) -> u32
        ensures { result ≡ withdrawal_count self.now.log }
    {
        self.crashes.withdrawn()
    }

    /// How many held crashes have a report.
    pub fn reports(&self) -> u32
        ensures { result ≡ report_count self.now.log }
    {
        self.crashes.reported()
    }

    /// How often a crash was asked for.
    pub fn asks(&self) -> u64
        ensures { result ≡ ask_count self.now.log }
    {
        self.log.asks()
    }

    /// Whether the log has a stop.
    pub fn is_stopped(&self) -> bool
        ensures { result ≡ has_stop self.now.log }
    {
        self.log.is_stopped()
    }

    /// How many crashes are due.
    pub fn due(&self) -> u32
        ensures { result ≡ length (due_ids self.now.log) }
    {
        self.due.len() as u32
    }

    /// The number of the due crash at this place of their order, from 0.
    pub fn due_at(&self, i: u32) -> u32
        requires { i < length (due_ids self.now.log) }
        ensures crash { result < length self.now.crashes }
        ensures due { slice_get (due_ids self.now.log) i ≡ Some (id_of self.now result) }
    {
        self.due.at(i as usize)
    }

    /// The number of the crash of an id, where it was accepted.
    pub fn number_of(&self, id: CrashId) -> Option<u32>
        ensures { MatchOption result (was_accepted self.now.log id ≡ false)
            (λ number. IsTrue (was_accepted self.now.log id) × (number < length self.now.crashes)
            × (id_of self.now number ≡ id)) }
    {
        self.crashes.number_of(id)
    }

    /// The crash of a number.
    pub fn crash(&self, number: u32) -> &Crash
        requires { number < length self.now.crashes }
        ensures filed { slice_get self.now.crashes number ≡ Some result.now.filed }
        ensures standing { result.now.standing ≡ standing_of self.now.log result.now.filed.id }
    {
        self.crashes.get(number)
    }

    /// Takes memory for `count` more events.
    pub fn reserve(&mut self, count: u32) -> Result<(), NoMemory>
        ensures ok { OnOk result (self.new ≡ record self.old { room = self.new.room }) }
        ensures room { OnOk result (count ≤ self.new.room) }
        ensures kept { self.old.room ≤ self.new.room }
        ensures err { OnErr result (self.new ≡ self.old) }
    {
        let count = count as usize;
        if count <= self.room {
            return Ok(());
        }
        self.log.reserve(count)?;
        self.crashes.reserve(count)?;
        self.due.reserve(count)?;
        self.room = count;
        Ok(())
    }

    /// A new crash is accepted. It is due at once where its digit is 0.
    pub fn accept(&mut self, filed: Filed)
        requires is_new { was_accepted self.old.log filed.id ≡ false }
        requires few { length self.old.crashes < 2 ^ 32 - 1 }
        requires room { 0 < self.old.room }
        ensures { self.new ≡ record (with_event self.old (Event.Accepted filed.id))
            { crashes = self.old.crashes ++ filed ∷ [] } }
    {
        let event = Event::Accepted(filed.id);
        let standing = Standing::default().after(&event, self.log.len());
        let number = self.crashes.len();
        self.due.follow(number, None, standing.due_since);
        self.crashes.push(Crash { filed, standing });
        self.log.push(event);
        self.room -= 1;
    }

    /// A held crash is asked for. It is due since now where it wasn't due.
    pub fn ask(&mut self, number: u32)
        requires crash { number < length self.old.crashes }
        requires held { IsTrue (is_held self.old.log (id_of self.old number)) }
        requires room { 0 < self.old.room }
        ensures { self.new ≡ with_event self.old (Event.Asked (id_of self.old number)) }
    {
        let id = self.crash(number).filed.id;
        self.change(number, Event::Asked(id));
    }

    /// A held crash is withdrawn.
    pub fn withdraw(&mut self, number: u32)
        requires crash { number < length self.old.crashes }
        requires held { IsTrue (is_held self.old.log (id_of self.old number)) }
        requires room { 0 < self.old.room }
        ensures { self.new ≡ with_event self.old (Event.Withdrawn (id_of self.old number)) }
    {
        let id = self.crash(number).filed.id;
        self.change(number, Event::Withdrawn(id));
    }

    /// A report of a held crash is kept. One that the run's own lists and symbols made counts as the crash's processing
    /// where the crash is due.
    pub fn report(&mut self, number: u32, own: bool)
        requires crash { number < length self.old.crashes }
        requires held { IsTrue (is_held self.old.log (id_of self.old number)) }
        requires room { 0 < self.old.room }
        ensures { self.new ≡ with_event self.old (Event.Reported (id_of self.old number) own) }
    {
        let id = self.crash(number).filed.id;
        self.change(number, Event::Reported { id, own });
    }

    /// A due crash is processed.
    pub fn finish(&mut self, number: u32)
        requires crash { number < length self.old.crashes }
        requires due { IsTrue (is_due self.old.log (id_of self.old number)) }
        requires room { 0 < self.old.room }
        ensures { self.new ≡ with_event self.old (Event.Done (id_of self.old number)) }
    {
        let id = self.crash(number).filed.id;
        self.change(number, Event::Done(id));
    }

    /// The service is stopped.
    pub fn stop(&mut self)
        requires goes_on { has_stop self.old.log ≡ false }
        requires room { 0 < self.old.room }
        ensures { self.new ≡ with_event self.old Event.Stopped }
    {
        self.log.push(Event::Stopped);
        self.room -= 1;
    }

    /// One more event of an accepted crash.
    fn change(&mut self, number: u32, event: Event)
        requires crash { number < length self.old.crashes }
        requires of { about event ≡ Some (id_of self.old number) }
        requires no_acceptance { accepted_in event ≡ None }
        requires legal { IsLegalNext self.old.log event }
        requires room { 0 < self.old.room }
        ensures { self.new ≡ with_event self.old event }
    {
        let before = self.crashes.get(number).standing;
        let after = before.after(&event, self.log.len());
        self.due.follow(number, before.due_since, after.due_since);
        self.crashes.set_standing(number, after);
        self.log.push(event);
        self.room -= 1;
    }
}
