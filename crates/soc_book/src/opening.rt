//! Opening a book over a disk.
ghost use Rattle.std.specs.Prelude.{◌≡◌, ◌≢◌, ◌↔◌, ◌<◌, ◌+◌, ◌≤◌, ◌&&◌, ℕ, List, [], IsTrue, IfSome, IfOk, IfErr, IsErrOf, OnOk, OnErr, MatchResult, None, Some, option_map, bytes_eq, false, length, if◌then◌else◌};
ghost use Rattle.std.specs.Option.{option_map_or};
ghost use Rattle.soc_raw.specs.Refusals.{Refuses};
ghost use Rattle.soc_schema.specs.Fields.{product_field, uuid_field};
ghost use Rattle.soc_schema.specs.Rows.{value_of};
ghost use Rattle.soc_schema.specs.declared.value.Value.TheVariants.{Text as TextValue};
ghost use Rattle.soc_edge.specs.Disk.{LeavesOnly, Looks, GoesOn, DiskFailed};
ghost use Rattle.soc_journal.specs.Entries.{has_kind, second_version};
ghost use Rattle.soc_journal.specs.Text.{HasHeader};
ghost use Rattle.soc_ledger.specs.Due.{is_due};
ghost use Rattle.soc_ledger.specs.State.{id_of};
ghost use Rattle.soc_store.specs.Stored.{with_row};
ghost use Rattle.soc_vault.specs.Openings.{entry_of, OpeningLeaves};
ghost use Rattle.soc_desk.specs.Basis.{Basis};
ghost use Rattle.soc_desk.specs.State.{State};
ghost use Rattle.soc_book.specs.Books.{StandsFor, disk_in, lent_to, limits_of, reporter_of};
ghost use Rattle.soc_book.specs.Openings.{IsSettled, RestoredFor, Restores, StopsAtEntry};
ghost use Rattle.soc_book.specs.declared.book.Change.TheVariants as Pending;
ghost use Rattle.soc_book.specs.inner.Pieces.{IsHeldAs, product_at};
ghost use Rattle.soc_book.specs.inner.Recoveries.{IsRowOf, NoCrashOf, NoHeldOf, NoReportOf, Takes, TakesCrash, TakesId, TakesNot, TakesReport, is_among_own};

use crate::book::Book;
use crate::report::{Report, tells, with_product};
use crate::submission::NewCrash;
use soc_base::NoMemory;
use soc_desk::Limits;
use soc_edge::Disk;
use soc_journal::{ACCEPT, ASK, Journal, OpenError, REPORT, WITHDRAW};
use soc_ledger::Ledger;
use soc_raw::{CrashId, RawCrash, RecordError};
use soc_schema::{Reporter, Row};
use soc_store::Store;
use soc_vault::{Found, Recover, Vault};
use std::alloc::Global;

/// What the journal of a disk says: its log, without contents, and the rows of the reports that count.
#[derive(Drop)]
pub struct Restored {
    journal: Journal,
    ledger: Ledger,
    store: Store,
}

impl Restored {
    /// Reads the journal that a disk holds. A disk of length 0 gets an empty one. Over a disk that reads ahead this is one
    /// pass in large reads.
    ///
    /// `NotOurs` comes where the disk doesn't begin as a journal does, `BadEntry` at the first place where neither an entry
    /// of a legal log nor the closed gate stands, and `StoreFault` only where the disk failed.
    pub fn read<D: Disk, R: Reporter>(
        alloc: Global,
        disk: &mut D,
        reporter: &R,
        limits: Limits,
    ) -> Result<Restored, OpenError>
        ensures opens { IfOk result (λ restored. Restores (R.row_of reporter.now)
            (R.digest_of reporter.now) limits (D.state disk.old) restored (D.state disk.new)) }
        ensures settled { IfOk result IsSettled }
        ensures not_ours { IsErrOf result OpenError.NotOurs → IfSome (D.state disk.old).content
            (λ bytes. (bytes ≢ []) × ¬ (HasHeader bytes)) }
        ensures bad_entry { (place : ℕ) → IsErrOf result (OpenError.BadEntry place)
            → IfSome (D.state disk.old).content (λ bytes. StopsAtEntry bytes place) }
        ensures any_moment { IfSome (D.state disk.old).content
            (λ bytes. LeavesOnly (D.state disk.old) (D.state disk.new)
            (OpeningLeaves (D.state disk.old).images bytes)) }
        ensures refused { IfErr result (λ error. error ≢ OpenError.StoreFault
            → IfSome (D.state disk.old).content (λ bytes. bytes ≢ []
            → Looks (D.state disk.old) (D.state disk.new))) }
        ensures goes_on { GoesOn (D.state disk.old) (D.state disk.new) }
        ensures cause { IsErrOf result OpenError.StoreFault
            → DiskFailed (D.state disk.old) (D.state disk.new) }
    {
        let mut recovery = Recovery {
            own: reporter.digest(),
            ledger: Ledger::new(alloc),
            store: Store::new(alloc),
        };
        let limit = journal_bytes(&limits);
        let journal = soc_vault::open(alloc, disk, limit, &mut recovery)?;
        let Recovery { ledger, store, .. } = recovery;
        Ok(Restored {
            journal,
            ledger,
            store,
        })
    }
}

impl<'a, D: Disk, R: Reporter> Book<'a, D, R> {
    /// The book over a disk whose journal was read with the same reporter and limits.
    pub fn over(
        alloc: Global,
        disk: &'a mut D,
        reporter: &'a R,
        limits: Limits,
        restored: Restored,
    ) -> Book<'a, D, R>
        requires { IsSettled restored }
        ensures same_disk { lent_to result ≡ disk.entry.ghost_name }
        ensures disk { disk_in result ≡ disk.old }
        ensures limits { limits_of result ≡ limits }
        ensures reporter { reporter_of result ≡ reporter.now }
        ensures stands { (basis : Basis) (state : State)
            → RestoredFor basis limits restored (D.state disk.old) state
            → StandsFor basis result state }
    {
        let Restored {
            journal,
            ledger,
            store,
        } = restored;
        Book {
            alloc,
            reporter,
            limits,
            ledger,
            vault: Vault::new(disk, journal),
            store,
            doubt: None,
        }
    }

    /// Gives the disk back.
    pub fn into_disk(self) -> &'a mut D
        ensures same_disk { result.ghost_name ≡ lent_to self.entry }
        ensures disk { result.now ≡ disk_in self.entry }
    {
        let Book { vault, .. } = self;
        vault.into_disk()
    }
}

/// The most bytes that a journal may have.
fn journal_bytes(limits: &Limits) -> u64
    ensures { result ≡ limits.now.journal_bytes }
{
    limits.journal_bytes
}

/// A ledger and rows that are filled from a journal's entries.
#[derive(Drop)]
pub(crate) struct Recovery {
    /// What names the run's own lists and symbols.
    own: Option<[u8; 32]>,
    ledger: Ledger,
    store: Store,
}

impl Recover for Recovery {
    ghost use Rattle.soc_desk.specs.Basis.{Basis};
    ghost use Rattle.soc_desk.specs.Opens.{RefusesEntry};
    ghost use Rattle.soc_book.specs.inner.Recoveries.{Recovers};

    ghost was_given = { λ recovery start entries.
        Recovers recovery.own recovery.ledger recovery.store start entries };

    ghost name = { λ recovery. recovery.own };

    ghost refuses = { λ entries entry. (basis : Basis) → RefusesEntry basis entries entry };

    fn recover(&mut self, alloc: Global, found: Found) -> Result<(), OpenError> {
        if self.ledger.reserve(1).is_err() {
            return Err(OpenError::NoMemory);
        }
        match self.take(alloc, &found) {
            Ok(()) => Ok(()),
            Err(RecordError::BadRecord) => Err(OpenError::BadEntry { place: found.place }),
            Err(RecordError::NoMemory) => Err(OpenError::NoMemory),
        }
    }
}

impl Recovery {
    /// Adds the change of an entry.
    fn take(&mut self, alloc: Global, found: &Found) -> Result<(), RecordError>
        requires known { IsTrue (has_kind second_version found.now.kind) }
        requires room { 0 < self.old.ledger.room }
        ensures own { self.new.own ≡ self.old.own }
        ensures ok { OnOk result (Takes self.old.own self.old.ledger self.old.store found.now.place
            (entry_of found.now) self.new.ledger self.new.store) }
        ensures bad { IfErr result (λ error.
            Refuses error (TakesNot self.old.ledger (entry_of found.now))) }
    {
        let body = found.body.as_slice();
        match found.kind {
            ACCEPT => self.accept(alloc, body, found.place),
            ASK => self.ask(body),
            WITHDRAW => self.withdraw(body),
            REPORT => self.report(alloc, body),
            _ => Err(RecordError::BadRecord),
        }
    }

    /// A crash, of which the body is the record.
    fn accept(&mut self, alloc: Global, body: &[u8], place: u64) -> Result<(), RecordError>
        requires { 0 < self.old.ledger.room }
        ensures own { self.new.own ≡ self.old.own }
        ensures ok { OnOk result (TakesCrash self.old.ledger self.old.store place body.now
            self.new.ledger self.new.store) }
        ensures bad { IfErr result (λ error. Refuses error (NoCrashOf self.old.ledger body.now)) }
    {
        let raw = RawCrash::decode(alloc, body)?;
        if self.ledger.number_of(raw.id).is_some() {
            return Err(RecordError::BadRecord);
        }
        if self.ledger.accepted() == u32::MAX {
            return Err(RecordError::BadRecord);
        }
        let new = NewCrash::of(alloc, &raw, body)?;
        self.ledger.accept(new.filed(place, &self.store));
        Ok(())
    }

    fn ask(&mut self, body: &[u8]) -> Result<(), RecordError>
        requires { 0 < self.old.ledger.room }
        ensures own { self.new.own ≡ self.old.own }
        ensures ok { OnOk result (TakesId Pending.Ask self.old.ledger self.old.store body.now
            self.new.ledger self.new.store) }
        ensures bad { IfErr result (λ error. Refuses error (NoHeldOf self.old.ledger body.now)) }
    {
        let number = self.held(body)?;
        self.ledger.ask(number);
        Ok(())
    }

    fn withdraw(&mut self, body: &[u8]) -> Result<(), RecordError>
        requires { 0 < self.old.ledger.room }
        ensures own { self.new.own ≡ self.old.own }
        ensures ok { OnOk result (TakesId Pending.Withdraw self.old.ledger self.old.store body.now
            self.new.ledger self.new.store) }
        ensures bad { IfErr result (λ error. Refuses error (NoHeldOf self.old.ledger body.now)) }
    {
        let number = self.held(body)?;
        let _ = self.store.take(number);
        self.ledger.withdraw(number);
        Ok(())
    }

    /// A report, of which the row is put where it counts as the crash's processing.
    fn report(&mut self, alloc: Global, body: &[u8]) -> Result<(), RecordError>
        requires { 0 < self.old.ledger.room }
        ensures own { self.new.own ≡ self.old.own }
        ensures ok { OnOk result (TakesReport self.old.own self.old.ledger self.old.store body.now
            self.new.ledger self.new.store) }
        ensures bad { IfErr result (λ error. Refuses error (NoReportOf self.old.ledger body.now)) }
    {
        let report = Report::read(alloc, body)?;
        let number = self.held(report.id.as_str().as_bytes())?;
        if !self.tells(number, report.id, &report.row) {
            return Err(RecordError::BadRecord);
        }
        let own = is_own(&self.own, report.digest);
        let counts = own && self.is_due(number);
        let row = with_product(report.row, &self.ledger.crash(number).filed.product);
        put_row(&mut self.store, alloc, number, row, counts)?;
        self.ledger.report(number, own);
        Ok(())
    }

    /// The number of the held crash whose id is the body.
    fn held(&self, body: &[u8]) -> Result<u32, RecordError>
        ensures { MatchResult result (λ number. IsHeldAs self.now.ledger body.now number)
            (λ error. (error ≡ RecordError.BadRecord) × NoHeldOf self.now.ledger body.now) }
    {
        let Some(id) = CrashId::of_bytes(body) else {
            return Err(RecordError::BadRecord);
        };
        let Some(number) = self.ledger.number_of(id) else {
            return Err(RecordError::BadRecord);
        };
        if self.ledger.crash(number).standing.withdrawn {
            return Err(RecordError::BadRecord);
        }
        Ok(number)
    }

    /// Whether the crash of a number is due.
    fn is_due(&self, number: u32) -> bool
        requires { number < length self.now.ledger.crashes }
        ensures { result ≡ is_due self.now.ledger.log (id_of self.now.ledger number) }
    {
        self.ledger.crash(number).standing.due_since.is_some()
    }

    /// Whether a row has an id as `uuid`, and the product of the crash of a number as `product` or none.
    fn tells(&self, number: u32, id: CrashId, row: &Row) -> bool
        requires { number < length self.now.ledger.crashes }
        ensures { IsTrue result ↔ IsRowOf self.now.ledger number id row.now }
    {
        tells(row, id, &self.ledger.crash(number).filed.product)
    }
}

/// Puts a row at a place, where it counts.
fn put_row(
    store: &mut Store,
    alloc: Global,
    place: u32,
    row: Row,
    counts: bool,
) -> Result<(), NoMemory>
    ensures { OnOk result (store.new
        ≡ (if counts then with_row (place, row) store.old else store.old)) }
{
    if !counts {
        return Ok(());
    }
    match store.put(alloc, place, row) {
        Ok(()) => Ok(()),
        Err((_, error)) => Err(error),
    }
}

/// Whether a digest is the run's own.
fn is_own(own: &Option<[u8; 32]>, digest: &[u8]) -> bool
    ensures { result ≡ is_among_own own.now digest.now }
{
    match own {
        Some(own) => own.as_slice() == digest,
        None => false,
    }
}
