//! Reports that are kept for later runs.
ghost use Rattle.std.specs.Prelude.{◌≡◌, ◌+◌, ◌<◌, ◌≤◌, ◌&&◌, ◌++◌, ◌∷◌, [], ℕ, IfOk, MatchResult, OnErr, OnOk, List, None, Some, length};
ghost use Rattle.std.specs.Option.{option_map};
ghost use Rattle.soc_journal.specs.Entries.{entry_text, max_body};
ghost use Rattle.soc_ledger.specs.State.{id_of};
ghost use Rattle.soc_store.specs.Stored.{row_at};
ghost use Rattle.soc_desk.specs.Basis.{Basis, RowsTell};
ghost use Rattle.soc_desk.specs.Log.{Change as Logged, IsLegal, Kept};
ghost use Rattle.soc_desk.specs.State.{entries_of, settled};
ghost use Rattle.soc_book.specs.Books.{SameSetting, StandsFor, disk_of, reporter_of};
ghost use Rattle.soc_book.specs.Keeping.{KeepsByReporter};
ghost use Rattle.soc_book.specs.inner.Keepings.{HasGathered, IsBatch, IsMost, IsSameBatch, KeepsBatch, LeavesSome, MakesEntry, MayMakeEntry, is_wanted, keep_reply, with_all};
ghost use Rattle.soc_book.specs.inner.Pieces.{product_at};
ghost use Rattle.soc_book.specs.inner.Stands.{AreReports, most_bytes, most_together};
ghost use Rattle.soc_book.specs.inner.Steps.{Becomes, KeepsBook};

use crate::book::{Book, Change};
use crate::report::{HEAD, report_text, tells};
use crate::writes::{is_full, make_room};
use soc_base::NoMemory;
use soc_desk::{Refusal, Reply};
use soc_edge::{Disk, Steps};
use soc_journal::{ENTRY_HEAD, EntryText, MAX_BODY};
use soc_ledger::Filed;
use soc_schema::Reporter;
use soc_store::Store;
use std::alloc::Global;
use std::marker::Brand;
use std::sync::ledger::{Blank, Ledger};

/// How many bytes stand beside an entry's body: its head, and the closed gate behind it.
const BESIDE_BODY: u64 = ENTRY_HEAD as u64 + 1;

/// Reports that are written together.
#[derive(Drop)]
struct Batch {
    /// Their entries.
    entries: Vec<EntryText>,
    /// The numbers of their crashes.
    numbers: Vec<u32>,
    /// How many bytes the entries have.
    bytes: u64,
    /// The number of the first crash that wasn't looked at.
    next: u32,
}

impl Batch {
    fn new(alloc: Global, next: u32) -> Batch
        ensures entries { result.entries.items ≡ [] }
        ensures numbers { result.numbers.items ≡ [] }
        ensures bytes { result.bytes ≡ 0 }
        ensures next { result.next ≡ next }
    {
        Batch {
            entries: Vec::new(alloc),
            numbers: Vec::new(alloc),
            bytes: 0,
            next,
        }
    }

    /// Adds the report of the crash of a number. After an error nothing was added.
    fn push(&mut self, number: u32, entry: EntryText) -> Result<(), NoMemory>
        requires { self.old.bytes < most_bytes }
        ensures entries { OnOk result (self.new.entries.items ≡ self.old.entries.items
            ++ entry ∷ []) }
        ensures numbers { OnOk result (self.new.numbers.items ≡ self.old.numbers.items
            ++ number ∷ []) }
        ensures bytes { OnOk result (self.new.bytes ≡ self.old.bytes + length (entry_text entry)) }
        ensures next { self.new.next ≡ self.old.next }
        ensures unchanged { OnErr result (IsSameBatch self.old self.new) }
    {
        let count = entry.count();
        self.entries.reserve(1)?;
        self.numbers.reserve(1)?;
        self.entries.push(entry).unwrap();
        self.numbers.push(number).unwrap();
        self.bytes += count;
        Ok(())
    }
}

impl<'a, D: Disk, R: Reporter> Book<'a, D, R> {
    /// Keeps the reports that were made by the reporter's lists and symbols for later runs that have the same, and answers
    /// how many it kept. It passes over a report that is longer than an entry may be or doesn't fit the journal.
    ///
    /// Without a digest of the reporter there is nothing to keep. The reports that were kept before a refusal stay.
    pub fn keep(&mut self) -> Reply
        ensures setting { SameSetting self.old self.new }
        ensures keeps { KeepsByReporter self.old result self.new }
    {
        match self.settle() {
            Ok(()) => keep_reply(self.keep_settled()),
            Err(refusal) => Reply::Refused(refusal),
        }
    }

    /// The same once a doubt is settled.
    fn keep_settled(&mut self) -> Result<u64, Refusal>
        requires { self.old.vault.journal.doubt ≡ None }
        ensures setting { SameSetting self.old self.new }
        ensures keeps { KeepsBook (R.digest_of (reporter_of self.old)) self.old result self.new }
    {
        match self.reporter.digest() {
            Some(digest) => self.keep_all(&digest),
            None => Ok(0),
        }
    }

    /// Keeps the report of each crash, in the order in which they were accepted, where it is to be kept, some together.
    fn keep_all(&mut self, digest: &[u8; 32]) -> Result<u64, Refusal>
        requires { self.old.vault.journal.doubt ≡ None }
        ensures setting { SameSetting self.old self.new }
        ensures keeps { KeepsBook (Some digest.now) self.old result self.new }
    {
        let mut kept = 0;
        let mut number = 0;
        while number < self.ledger.accepted() {
            let batch = self.next_batch(number, digest)?;
            number = batch.next;
            kept += self.keep_batch(batch)?;
        }
        Ok(kept)
    }

    /// Keeps reports that were gathered, all of them or none, and answers how many they are.
    fn keep_batch(&mut self, batch: Batch) -> Result<u64, Refusal>
        requires settled { self.old.vault.journal.doubt ≡ None }
        requires batch { IsBatch self.old.ledger self.old.vault.journal batch }
        ensures setting { SameSetting self.old self.new }
        ensures settled { OnOk result (self.new.vault.journal.doubt ≡ None) }
        ensures crashes { self.new.ledger.crashes ≡ self.old.ledger.crashes }
        ensures count { IfOk result (λ count. count ≡ length batch.numbers.items) }
        ensures keeps { (basis : Basis) (log : List Logged) (reports : List Kept)
            → StandsFor basis self.old (settled log)
            → AreReports basis log self.old.ledger batch.numbers.items reports
            → IsLegal basis (with_all log reports) → batch.entries.items ≡ entries_of reports
            → Becomes basis self.new (λ later. KeepsBatch basis log
            (disk_of self.old) reports result later (disk_of self.new)) }
    {
        let Batch {
            entries,
            numbers,
            ..
        } = batch;
        let count = numbers.len() as u64;
        if count == 0 {
            return Ok(0);
        }
        make_room(&mut self.ledger)?;
        self.append(entries.as_slice(), Change::Reports(numbers))?;
        Ok(count)
    }

    /// The reports of crashes from a number on that are to be kept, as many as are written together. Where memory runs out,
    /// these are those that were gathered first, if there are any.
    fn next_batch(&self, from: u32, digest: &[u8; 32]) -> Result<Batch, NoMemory>
        requires { from < length self.now.ledger.crashes }
        ensures batch { IfOk result (IsBatch self.now.ledger self.now.vault.journal) }
        ensures next { IfOk result (λ batch. (from < batch.next)
            × (batch.next ≤ length self.now.ledger.crashes)) }
        ensures few { IfOk result (λ batch. from + length batch.numbers.items ≤ batch.next) }
        ensures gathered { (basis : Basis) (log : List Logged) → basis.digest ≡ Some digest.now
            → RowsTell basis → StandsFor basis self.now (settled log) → MatchResult result
            (λ batch. (reports : List Kept) × HasGathered basis log self.now.ledger from batch.next
            batch.numbers.items batch.entries.items reports) (λ _. LeavesSome basis log from) }
    {
        let mut batch = Batch::new(self.alloc, from);
        while batch.next < self.ledger.accepted() && !is_full(batch.numbers.len(), batch.bytes) {
            match self.gather(&mut batch, digest) {
                Ok(()) => batch.next += 1,
                Err(_) if !batch.numbers.is_empty() => return Ok(batch),
                Err(error) => return Err(error),
            }
        }
        Ok(batch)
    }

    /// Adds the report of the next crash to those that are written together, where it is to be kept and the journal has room
    /// for it behind them. After an error nothing was added.
    fn gather(&self, batch: &mut Batch, digest: &[u8; 32]) -> Result<(), NoMemory>
        requires within { batch.old.next < length self.now.ledger.crashes }
        requires few { length batch.old.numbers.items < most_together }
        requires short { batch.old.bytes < most_bytes }
        requires batch { IsBatch self.now.ledger self.now.vault.journal batch.old }
        ensures batch { IsBatch self.now.ledger self.now.vault.journal batch.new }
        ensures next { batch.new.next ≡ batch.old.next }
        ensures one { OnOk result (length batch.new.numbers.items
            ≤ length batch.old.numbers.items + 1) }
        ensures unchanged { OnErr result (IsSameBatch batch.old batch.new) }
        ensures gathered { (basis : Basis) (log : List Logged) (from : ℕ) (reports : List Kept)
            → basis.digest ≡ Some digest.now → RowsTell basis
            → StandsFor basis self.now (settled log)
            → HasGathered basis log self.now.ledger from batch.old.next batch.old.numbers.items
            batch.old.entries.items reports → MatchResult result
            (λ _. (more : List Kept) × HasGathered basis log self.now.ledger from
            (batch.old.next + 1) batch.new.numbers.items batch.new.entries.items more)
            (λ _. LeavesSome basis log from) }
    {
        let number = batch.next;
        if !self.is_to_keep(number) {
            return Ok(());
        }
        let most = self.most_body(batch.bytes);
        match self.report_entry(number, digest, most)? {
            Some(entry) => batch.push(number, entry),
            None => Ok(()),
        }
    }

    /// How many bytes the body of an entry may have behind so many bytes of others.
    fn most_body(&self, behind: u64) -> u64
        ensures { IsMost (self.now.vault.journal.gate + behind) self.now.vault.journal.limit
            result }
    {
        let room = self.vault.room().saturating_sub(behind);
        room.saturating_sub(BESIDE_BODY).min(u64::from(MAX_BODY))
    }

    /// The entry of the report of the crash of a number, where it has a row that tells of it and a body of at most so many
    /// bytes.
    fn report_entry(
        &self,
        number: u32,
        digest: &[u8; 32],
        most: u64,
    ) -> Result<Option<EntryText>, NoMemory>
        requires within { number < length self.now.ledger.crashes }
        requires most { most ≤ max_body }
        ensures { MatchResult result
            (MakesEntry (option_map (λ s. s.1) (row_at number self.now.store))
            (id_of self.now.ledger number) (product_at self.now.ledger number) digest.now most)
            (λ _. MayMakeEntry (option_map (λ s. s.1) (row_at number self.now.store))
            (id_of self.now.ledger number) (product_at self.now.ledger number) most) }
    {
        let filed = &self.ledger.crash(number).filed;
        let blank = Blank::new(1);
        entry_of_row::<Brand>(self.alloc, &self.store, number, filed, digest, most, blank)
    }

    /// Whether the crash of a number is held, has a report, isn't due, and has no report of this run's digest behind its
    /// last acceptance or asking.
    fn is_to_keep(&self, number: u32) -> bool
        requires { number < length self.now.ledger.crashes }
        ensures { result ≡ is_wanted self.now.ledger.log (id_of self.now.ledger number) }
    {
        let crash = self.ledger.crash(number);
        let standing = crash.standing;
        self.held(crash.filed.id).is_some()
            && standing.has_report
            && standing.due_since.is_none()
            && !standing.is_kept
    }
}

/// The reply to an answer how many reports were kept.
fn keep_reply(answer: Result<u64, Refusal>) -> Reply
    ensures { result ≡ keep_reply answer }
{
    match answer {
        Ok(kept) => Reply::Kept(kept),
        Err(refusal) => Reply::Refused(refusal),
    }
}

/// The entry of the row at a place, where there is one that tells of the crash, and the entry's body has at most so many
/// bytes.
fn entry_of_row<L: Ledger>(
    alloc: Global,
    store: &Store,
    place: u32,
    filed: &Filed,
    digest: &[u8; 32],
    most: u64,
    blank: Blank,
) -> Result<Option<EntryText>, NoMemory>
    requires most { most ≤ max_body }
    requires name { blank.name ≡ L.name }
    requires parts { blank.parts ≡ L.parts }
    requires some { 0 < blank.parts }
    ensures { MatchResult result
        (MakesEntry (option_map (λ s. s.1) (row_at place store.now)) filed.now.id filed.now.product
        digest.now most)
        (λ _. MayMakeEntry (option_map (λ s. s.1) (row_at place store.now)) filed.now.id
        filed.now.product most) }
{
    let mut steps: Steps<L> = Steps::new(blank);
    let Some(row) = store.row(place, &mut steps) else {
        return Ok(None);
    };
    let Some(most) = most.checked_sub(HEAD as u64) else {
        return Ok(None);
    };
    if !row.fits(most) {
        return Ok(None);
    }
    if !tells(row, filed.id, &filed.product) {
        return Ok(None);
    }
    match report_text(alloc, filed.id, digest, row) {
        Ok(entry) => Ok(Some(entry)),
        Err(error) => Err(error),
    }
}
