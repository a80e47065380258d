//! What is written, and settled.
ghost use Rattle.std.specs.Prelude.{◌≡◌, ◌<◌, ◌≤◌, ◌+◌, not, length, ℕ, IfErr, IfOk, IfSome, IsErrOf, IsTrue, MatchResult, None, Ok, OnOk};
ghost use Rattle.soc_edge.specs.Disk.{Looks};
ghost use Rattle.soc_journal.specs.Entries.{sealed_all};
ghost use Rattle.soc_desk.specs.Kinds.{RefusesWrite};
ghost use Rattle.soc_book.specs.Books.{SameSetting, disk_of};
ghost use Rattle.soc_book.specs.inner.Pieces.{IsWriteReply};
ghost use Rattle.soc_book.specs.inner.Stands.{AcceptsNone, AddsSettled, FitNew, FitReports, Fits, Pushes, PushesNew, most_bytes, most_together, with_reports};
ghost use Rattle.soc_book.specs.inner.Steps.{BeginsBook, WritesBook, WritesOne};

use crate::book::{Book, Change, MOST_BYTES, MOST_TOGETHER, ROOM};
use crate::submission::NewCrash;
use soc_base::NoMemory;
use soc_desk::{Refusal, Reply};
use soc_edge::Disk;
use soc_journal::{AppendError, EntryText, Settled};
use soc_ledger::Ledger;
use soc_schema::Reporter;
use soc_store::Store;
use std::slice;

impl<'a, D: Disk, R: Reporter> Book<'a, D, R> {
    /// What a writing command was prepared with, once there is memory for the events that it adds and a doubt is settled.
    pub(crate) fn begin<T: Drop>(&mut self, prepared: Result<T, NoMemory>) -> Result<T, Refusal>
        ensures setting { SameSetting self.old self.new }
        ensures refusal { IfErr result RefusesWrite }
        ensures made { IfOk result (λ made. prepared ≡ Ok made) }
        ensures settled { OnOk result (self.new.vault.journal.doubt ≡ None) }
        ensures room { OnOk result (0 < self.new.ledger.room) }
        ensures looks { Looks (disk_of self.old) (disk_of self.new) }
        ensures begins { BeginsBook self.old result self.new }
    {
        let prepared = prepared?;
        make_room(&mut self.ledger)?;
        self.settle()?;
        Ok(prepared)
    }

    /// Settles a doubt, where there is one: the log gets its changes, or they are forgotten.
    pub(crate) fn settle(&mut self) -> Result<(), Refusal>
        ensures setting { SameSetting self.old self.new }
        ensures refusal { IfErr result RefusesWrite }
        ensures settled { OnOk result (self.new.vault.journal.doubt ≡ None) }
        ensures fault { IfErr result (λ refusal. refusal ≡ Refusal.StoreFault) }
        ensures room { self.old.ledger.room ≤ self.new.ledger.room + most_together }
        ensures looks { Looks (disk_of self.old) (disk_of self.new) }
        ensures begins { BeginsBook self.old result self.new }
    {
        let Ok(settled) = self.vault.settle() else {
            return Err(Refusal::StoreFault);
        };
        let doubt = self.doubt.take();
        push_settled(&mut self.ledger, &mut self.store, doubt, settled);
        Ok(())
    }

    /// Keeps the entries of a change on the disk, all of them or none, and then adds the change to the log.
    pub(crate) fn append(&mut self, entries: &[EntryText], change: Change) -> Result<(), Refusal>
        requires settled { self.old.vault.journal.doubt ≡ None }
        requires some { 0 < length entries.now }
        requires fits { Fits self.old.ledger change }
        ensures setting { SameSetting self.old self.new }
        ensures settled { OnOk result (self.new.vault.journal.doubt ≡ None) }
        ensures crashes { AcceptsNone change
            → self.new.ledger.crashes ≡ self.old.ledger.crashes }
        ensures refusal { IfErr result RefusesWrite }
        ensures full { IsErrOf result Refusal.JournalFull → self.old.vault.journal.limit
            < self.old.vault.journal.gate + length (sealed_all entries.now) }
        ensures appended { WritesBook self.old change entries.now result self.new }
    {
        match self.vault.keep_all(entries) {
            Ok(place) => {
                push(&mut self.ledger, &mut self.store, change, place);
                Ok(())
            }
            Err(AppendError::JournalFull) => Err(Refusal::JournalFull),
            Err(AppendError::StoreFault) => {
                self.doubt = Some(change);
                Err(Refusal::StoreFault)
            }
        }
    }

    /// The reply to a change of one entry: this one where it is written.
    pub(crate) fn write(&mut self, entry: &EntryText, change: Change, written: Reply) -> Reply
        requires settled { self.old.vault.journal.doubt ≡ None }
        requires fits { Fits self.old.ledger change }
        ensures setting { SameSetting self.old self.new }
        ensures kind { IsWriteReply written result }
        ensures writes { WritesOne self.old change entry.now written result self.new }
    {
        match self.append(slice::from_ref(entry), change) {
            Ok(()) => written,
            Err(refusal) => Reply::Refused(refusal),
        }
    }
}

/// Whether so many entries, of so many bytes, are enough to be written together.
pub(crate) fn is_full(count: usize, bytes: u64) -> bool
    ensures few { IsTrue (not result) → count < most_together }
    ensures short { IsTrue (not result) → bytes < most_bytes }
    ensures some { IsTrue result → 0 < count + bytes }
{
    count >= MOST_TOGETHER as usize || bytes >= MOST_BYTES
}

/// Takes the memory of the events that a command adds.
pub(crate) fn make_room(ledger: &mut Ledger) -> Result<(), Refusal>
    ensures { MatchResult result (λ _. (ledger.new ≡ record ledger.old { room = ledger.new.room })
        × (most_together + 1 ≤ ledger.new.room) × (ledger.old.room ≤ ledger.new.room))
        (λ refusal. (refusal ≡ Refusal.NoMemory) × (ledger.new ≡ ledger.old)) }
{
    match ledger.reserve(ROOM) {
        Ok(()) => Ok(()),
        Err(_) => Err(Refusal::NoMemory),
    }
}

/// Adds changes that were in doubt to the tables, where their entries were kept.
fn push_settled(ledger: &mut Ledger, store: &mut Store, doubt: Option<Change>, settled: Settled)
    requires { IfSome doubt (Fits ledger.old) }
    ensures { AddsSettled ledger.old store.old doubt settled ledger.new store.new }
{
    if let (Some(change), Settled::Kept { place }) = (doubt, settled) {
        push(ledger, store, change, place);
    }
}

/// Adds changes whose entries stand from a place on to the tables.
fn push(ledger: &mut Ledger, store: &mut Store, change: Change, place: u64)
    requires { Fits ledger.old change }
    ensures { Pushes ledger.old store.old change place ledger.new store.new }
{
    match change {
        Change::Accept(new) => ledger.accept(new.filed(place, store)),
        Change::Accepts(crashes) => push_new(ledger, store, crashes, place),
        Change::Ask(number) => ledger.ask(number),
        Change::Withdraw(number) => {
            let _ = store.take(number);
            ledger.withdraw(number);
        }
        Change::Reports(numbers) => push_reports(ledger, numbers.as_slice()),
    }
}

/// Adds new crashes whose entries stand from a place on.
fn push_new(ledger: &mut Ledger, store: &Store, crashes: Vec<NewCrash>, first: u64)
    requires { FitNew ledger.old crashes.items }
    ensures { (end : ℕ) × PushesNew ledger.old crashes.items first ledger.new end }
{
    let mut place = first;
    for new in crashes {
        let behind = place.saturating_add(new.size);
        ledger.accept(new.filed(place, store));
        place = behind;
    }
}

/// Adds a report of the crash of each number.
fn push_reports(ledger: &mut Ledger, numbers: &[u32])
    requires { FitReports ledger.old numbers.now }
    ensures { ledger.new ≡ with_reports ledger.old numbers.now }
{
    let mut rest = numbers;
    while let Some((number, behind)) = rest.split_first() {
        ledger.report(*number, true);
        rest = behind;
    }
}
