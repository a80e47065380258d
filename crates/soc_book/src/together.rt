//! Several commands at once.
ghost use Rattle.std.specs.Prelude.{◌≡◌, ◌<◌, ◌≤◌, ◌+◌, ◌^◌, ◌++◌, ◌∷◌, [], IsTrue, IfOk, List, MatchOption, MatchResult, OnErr, false, length, map, vec_capacity, vec_len};
ghost use Rattle.std.specs.List.{AllByRecursion};
ghost use Rattle.soc_journal.specs.Entries.{entry_text};
ghost use Rattle.soc_ledger.specs.Events.{has_stop, is_among, was_accepted};
ghost use Rattle.soc_raw.specs.declared.raw_crash.RawCrash.{RawCrash as Raw};
ghost use Rattle.soc_desk.specs.Basis.{Basis};
ghost use Rattle.soc_desk.specs.Batches.{StoresAll};
ghost use Rattle.soc_desk.specs.Kinds.{NeedsNothing};
ghost use Rattle.soc_desk.specs.State.{State};
ghost use Rattle.soc_book.specs.Batches.{AsksAll};
ghost use Rattle.soc_book.specs.Books.{ForEachState, SameSetting, StandsFor, disk_in, disk_of};
ghost use Rattle.soc_book.specs.declared.prepared.Work.TheVariants as Works;
ghost use Rattle.soc_book.specs.inner.Batches.{AddsSubmission, FitsBehind, GoesOnWith, HasMemory, HasPlace, IsEmpty, IsSameBatch, Joins, MayStore, StoresBook, receipt_of, reply_to};
ghost use Rattle.soc_book.specs.inner.Prepared.{IsPrepared, command_of};
ghost use Rattle.soc_book.specs.inner.Stands.{most_together};
ghost use Rattle.soc_book.specs.inner.Steps.{Becomes};

use crate::book::{Book, Change};
use crate::prepared::{Prepared, Work};
use crate::submission::{NewCrash, Submission};
use crate::submit::is_due_at_once;
use crate::writes::{is_full, make_room};
use soc_base::NoMemory;
use soc_desk::{Receipt, Refusal, Reply};
use soc_edge::Disk;
use soc_journal::EntryText;
use soc_raw::{CrashId, RawCrash};
use soc_schema::Reporter;
use std::alloc::Global;
use std::mem;
use std::snapshot::Snapshot;

/// New crashes of different ids, which are written together.
#[derive(Drop)]
struct NewCrashes {
    ids: Vec<CrashId>,
    entries: Vec<EntryText>,
    crashes: Vec<NewCrash>,
    /// How many bytes the entries have.
    bytes: u64,
}

impl NewCrashes {
    fn new(alloc: Global) -> NewCrashes
        ensures { IsEmpty result }
    {
        NewCrashes {
            ids: Vec::new(alloc),
            entries: Vec::new(alloc),
            crashes: Vec::new(alloc),
            bytes: 0,
        }
    }

    /// Adds a submission, or gives it back where memory ran out.
    fn push(&mut self, submission: Submission) -> Result<(), Submission>
        requires { self.old.bytes + length (entry_text submission.entry) < 2 ^ 64 }
        ensures { MatchResult result (λ _. AddsSubmission self.old submission self.new)
            (λ back. (back ≡ submission) × IsSameBatch self.old self.new) }
    {
        if self.reserve().is_err() {
            return Err(submission);
        }
        let Submission { new, entry } = submission;
        self.bytes += entry.count();
        self.ids.push(new.id).unwrap();
        self.entries.push(entry).unwrap();
        self.crashes.push(new).unwrap();
        Ok(())
    }

    /// Takes the memory of one more.
    fn reserve(&mut self) -> Result<(), NoMemory>
        ensures same { IsSameBatch self.old self.new }
        ensures room { IfOk result (λ _. HasMemory self.new) }
    {
        self.ids.reserve(1)?;
        self.entries.reserve(1)?;
        self.crashes.reserve(1)?;
        Ok(())
    }
}

impl<'a, D: Disk, R: Reporter> Book<'a, D, R> {
    /// Carries out commands that were prepared, in order, and answers a receipt of each.
    ///
    /// Submissions of new crashes that follow one another and fit both limits are written together, at most 1,024 at once and
    /// none behind 4 MiB of others: all of them are kept, or each is answered `StoreFault`. Where there is no memory for the
    /// receipts, nothing is done.
    pub fn ask_all(&mut self, commands: Vec<Prepared>) -> Result<Vec<Receipt>, NoMemory>
        requires { AllByRecursion NeedsNothing commands.items }
        ensures setting { SameSetting self.old self.new }
        ensures unchanged { OnErr result (self.new ≡ self.old) }
        ensures asks { IfOk result
            (λ receipts. AsksAll self.old commands.items receipts.items self.new) }
    {
        let mut receipts = Vec::with_capacity(self.alloc, commands.len())?;
        self.ask_each(commands, &mut receipts);
        Ok(receipts)
    }

    /// The same, with room for the receipts.
    fn ask_each(&mut self, commands: Vec<Prepared>, receipts: &mut Vec<Receipt>)
        requires nothing { AllByRecursion NeedsNothing commands.items }
        requires none { receipts.old.items ≡ [] }
        requires room { length commands.items ≤ vec_capacity receipts.old }
        ensures setting { SameSetting self.old self.new }
        ensures asks { AsksAll self.old commands.items receipts.new.items self.new }
    {
        let mut batch = NewCrashes::new(self.alloc);
        for prepared in commands {
            self.take_up(&mut batch, prepared, receipts);
        }
        self.store_all(&mut batch, receipts);
    }

    /// Adds a command to the new crashes that wait to be written, where it is a submission that may be; else writes those,
    /// and carries it out alone.
    fn take_up(&mut self, batch: &mut NewCrashes, prepared: Prepared, receipts: &mut Vec<Receipt>)
        requires may { MayStore self.old.ledger self.old.vault.journal self.old.limits batch.old }
        requires nothing { NeedsNothing prepared }
        requires room { vec_len receipts.old + length batch.old.ids.items
            < vec_capacity receipts.old }
        ensures setting { SameSetting self.old self.new }
        ensures may { MayStore self.new.ledger self.new.vault.journal self.new.limits batch.new }
        ensures count { vec_len receipts.new + length batch.new.ids.items
            ≡ vec_len receipts.old + length batch.old.ids.items + 1 }
        ensures capacity { vec_capacity receipts.old ≤ vec_capacity receipts.new }
        ensures goes_on { GoesOnWith self.old batch.old receipts.old.items (prepared ∷ [])
            self.new batch.new receipts.new.items }
    {
        let Prepared { work } = prepared;
        if let Some(work) = self.join(batch, work) {
            self.ask_alone(batch, work, receipts);
        }
    }

    /// Adds what was prepared to the new crashes that wait to be written, where it is a submission that may be written with
    /// them; else gives it back.
    fn join(&mut self, batch: &mut NewCrashes, work: Work) -> Option<Work>
        requires { MayStore self.old.ledger self.old.vault.journal self.old.limits batch.old }
        ensures setting { SameSetting self.old self.new }
        ensures disk { disk_in self.new ≡ disk_in self.old }
        ensures stands { ForEachState self.old (λ basis state. StandsFor basis self.new state) }
        ensures may { MayStore self.new.ledger self.new.vault.journal self.new.limits batch.new }
        ensures joins { MatchOption result (Joins batch.old work batch.new)
            (λ back. (back ≡ work) × IsSameBatch batch.old batch.new) }
    {
        match work {
            Work::Submit { raw, submission } => match submission {
                Ok(submission) => self.join_submission(batch, raw, submission),
                Err(error) => Some(Work::Submit {
                    raw,
                    submission: Err(error),
                }),
            },
            other => Some(other),
        }
    }

    fn join_submission(
        &mut self,
        batch: &mut NewCrashes,
        raw: Snapshot<RawCrash>,
        submission: Submission,
    ) -> Option<Work>
        requires { MayStore self.old.ledger self.old.vault.journal self.old.limits batch.old }
        ensures setting { SameSetting self.old self.new }
        ensures disk { disk_in self.new ≡ disk_in self.old }
        ensures stands { ForEachState self.old (λ basis state. StandsFor basis self.new state) }
        ensures may { MayStore self.new.ledger self.new.vault.journal self.new.limits batch.new }
        ensures joins { MatchOption result (AddsSubmission batch.old submission batch.new)
            (λ back. (back ≡ Works.Submit raw (Ok submission)) × IsSameBatch batch.old batch.new) }
    {
        if !self.may_join(batch, &submission) {
            return Some(Work::Submit {
                raw,
                submission: Ok(submission),
            });
        }
        match batch.push(submission) {
            Ok(()) => None,
            Err(submission) => Some(Work::Submit {
                raw,
                submission: Ok(submission),
            }),
        }
    }

    /// Whether a submission may be written with these new crashes, and there is memory for the events of all of them.
    fn may_join(&mut self, batch: &NewCrashes, submission: &Submission) -> bool
        requires { MayStore self.old.ledger self.old.vault.journal self.old.limits batch.now }
        ensures setting { SameSetting self.old self.new }
        ensures disk { disk_in self.new ≡ disk_in self.old }
        ensures stands { ForEachState self.old (λ basis state. StandsFor basis self.new state) }
        ensures may { MayStore self.new.ledger self.new.vault.journal self.new.limits batch.now }
        ensures room { IsTrue result → most_together ≤ self.new.ledger.room }
        ensures place { IsTrue result → HasPlace self.new.ledger self.new.vault.journal
            self.new.limits batch.now submission.now }
    {
        if !self.has_place(batch, submission) {
            return false;
        }
        match make_room(&mut self.ledger) {
            Ok(()) => true,
            Err(_) => false,
        }
    }

    /// Whether no doubt is to be settled first, the id is new, and journal and limits leave room behind these new crashes.
    fn has_place(&self, batch: &NewCrashes, submission: &Submission) -> bool
        ensures { IsTrue result → HasPlace self.now.ledger self.now.vault.journal self.now.limits
            batch.now submission.now }
    {
        self.is_new(batch, submission.new.id) && self.fits_behind(batch, submission.entry.count())
    }

    /// Whether no crash of this id was accepted, nor is among these.
    fn is_new(&self, batch: &NewCrashes, id: CrashId) -> bool
        ensures accepted { IsTrue result → was_accepted self.now.ledger.log id ≡ false }
        ensures among { IsTrue result → is_among batch.now.ids.items id ≡ false }
    {
        self.ledger.number_of(id).is_none() && !batch.ids.as_slice().contains(&id)
    }

    /// Whether an entry of so many bytes may be written with these and fits both limits behind them, and no doubt is to be
    /// settled first.
    fn fits_behind(&self, batch: &NewCrashes, size: u64) -> bool
        ensures { IsTrue result → FitsBehind self.now.ledger self.now.vault.journal self.now.limits
            batch.now size }
    {
        if self.vault.is_in_doubt() {
            return false;
        }
        let count = batch.ids.len();
        if is_full(count, batch.bytes) {
            return false;
        }
        let most = self.limits.crashes;
        let crashes = u64::from(self.ledger.accepted()) + count as u64;
        if crashes >= u64::from(most) {
            return false;
        }
        let room = self.vault.room().saturating_sub(batch.bytes);
        size < room
    }

    /// Carries out what was prepared alone, once the new crashes that wait are written.
    fn ask_alone(&mut self, batch: &mut NewCrashes, work: Work, receipts: &mut Vec<Receipt>)
        requires may { MayStore self.old.ledger self.old.vault.journal self.old.limits batch.old }
        requires prepared { IsPrepared work }
        requires nothing { NeedsNothing (command_of work) }
        requires room { vec_len receipts.old + length batch.old.ids.items
            < vec_capacity receipts.old }
        ensures setting { SameSetting self.old self.new }
        ensures empty { IsEmpty batch.new }
        ensures count { vec_len receipts.new
            ≡ vec_len receipts.old + length batch.old.ids.items + 1 }
        ensures capacity { vec_capacity receipts.old ≤ vec_capacity receipts.new }
        ensures goes_on { GoesOnWith self.old batch.old receipts.old.items (command_of work ∷ [])
            self.new batch.new receipts.new.items }
    {
        self.store_all(batch, receipts);
        let receipt = self.ask_prepared(Prepared { work });
        receipts.push(receipt).unwrap();
    }

    /// Writes the new crashes that wait, if there are any.
    fn store_all(&mut self, batch: &mut NewCrashes, receipts: &mut Vec<Receipt>)
        requires may { MayStore self.old.ledger self.old.vault.journal self.old.limits batch.old }
        requires room { vec_len receipts.old + length batch.old.ids.items
            ≤ vec_capacity receipts.old }
        ensures setting { SameSetting self.old self.new }
        ensures empty { IsEmpty batch.new }
        ensures count { vec_len receipts.new ≡ vec_len receipts.old + length batch.old.ids.items }
        ensures capacity { vec_capacity receipts.old ≤ vec_capacity receipts.new }
        ensures goes_on { GoesOnWith self.old batch.old receipts.old.items []
            self.new batch.new receipts.new.items }
    {
        let waiting = mem::replace(batch, NewCrashes::new(self.alloc));
        if !waiting.ids.is_empty() {
            self.store(waiting, receipts);
        }
    }

    /// Writes new crashes together, all of them or none, and adds the receipt of each.
    fn store(&mut self, batch: NewCrashes, receipts: &mut Vec<Receipt>)
        requires may { MayStore self.old.ledger self.old.vault.journal self.old.limits batch }
        requires some { 0 < length batch.ids.items }
        requires room { vec_len receipts.old + length batch.ids.items ≤ vec_capacity receipts.old }
        ensures setting { SameSetting self.old self.new }
        ensures count { vec_len receipts.new ≡ vec_len receipts.old + length batch.ids.items }
        ensures capacity { vec_capacity receipts.old ≤ vec_capacity receipts.new }
        ensures stores { StoresBook self.old batch receipts.old.items
            self.new receipts.new.items }
    {
        let NewCrashes {
            ids,
            entries,
            crashes,
            ..
        } = batch;
        let written = self.append(entries.as_slice(), Change::Accepts(crashes));
        self.tell(ids.as_slice(), &written, receipts);
    }

    /// Adds the receipts of submissions that were written together.
    fn tell(&self, ids: &[CrashId], written: &Result<(), Refusal>, receipts: &mut Vec<Receipt>)
        requires { vec_len receipts.old + length ids.now ≤ vec_capacity receipts.old }
        ensures receipts { receipts.new.items ≡ receipts.old.items ++ map
            (receipt_of (length self.now.ledger.log) (has_stop self.now.ledger.log) written.now)
            ids.now }
        ensures count { vec_len receipts.new ≡ vec_len receipts.old + length ids.now }
        ensures capacity { vec_capacity receipts.old ≤ vec_capacity receipts.new }
        ensures short { length self.now.ledger.log < 2 ^ 60 }
    {
        let front = self.ledger.front();
        let stopped = self.ledger.is_stopped();
        let mut rest = ids;
        while let Some((id, behind)) = rest.split_first() {
            let receipt = Receipt {
                front,
                stopped,
                reply: reply_to(*id, written),
            };
            receipts.push(receipt).unwrap();
            rest = behind;
        }
    }
}

/// The reply to the submission of an id, by what became of its write.
fn reply_to(id: CrashId, written: &Result<(), Refusal>) -> Reply
    ensures { result ≡ reply_to written.now id }
{
    match written {
        Ok(()) => Reply::Stored {
            id,
            due: is_due_at_once(id),
        },
        Err(refusal) => Reply::Refused(*refusal),
    }
}
