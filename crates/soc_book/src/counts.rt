//! How much a book holds.
ghost use Rattle.std.specs.Prelude.{◌≡◌, ◌<◌, ◌^◌, IsTrue, length, slice_get, Some};
ghost use Rattle.soc_ledger.specs.Due.{due_ids};
ghost use Rattle.soc_ledger.specs.Events.{ask_count, held_ids, withdrawal_count};
ghost use Rattle.soc_ledger.specs.Reported.{report_count};
ghost use Rattle.soc_desk.specs.Counts.{counts_with, journal_size};
ghost use Rattle.soc_desk.specs.Kinds.{IsReplyTo};
ghost use Rattle.soc_desk.specs.Log.{events};
ghost use Rattle.soc_desk.specs.State.{doubted};
ghost use Rattle.soc_book.specs.Books.{ForEachState, SameSetting, Serves, log_in};

use crate::book::Book;
use crate::commands::check;
use soc_desk::{Command, Counts, Reply};
use soc_edge::Disk;
use soc_raw::CrashId;
use soc_schema::{Caller, Permission, Reporter};

impl<'a, D: Disk, R: Reporter> Book<'a, D, R> {
    /// How many changes the log has.
    pub fn front(&self) -> u64
        ensures count { result ≡ length (log_in self.now) }
        ensures of_log { ForEachState self.now (λ basis state. result ≡ length state.log) }
        ensures below { result < 2 ^ 60 }
    {
        self.ledger.front()
    }

    /// How many crashes are held.
    pub fn crashes(&self) -> u32
        ensures count { result ≡ length (held_ids (log_in self.now)) }
        ensures of_log { ForEachState self.now
            (λ basis state. result ≡ length (held_ids (events basis state.log))) }
    {
        self.ledger.held()
    }

    /// How many crashes were withdrawn.
    pub fn withdrawn(&self) -> u32
        ensures count { result ≡ withdrawal_count (log_in self.now) }
        ensures of_log { ForEachState self.now
            (λ basis state. result ≡ withdrawal_count (events basis state.log)) }
    {
        self.ledger.withdrawn()
    }

    /// How many held crashes have a report.
    pub fn reports(&self) -> u32
        ensures count { result ≡ report_count (log_in self.now) }
        ensures of_log { ForEachState self.now
            (λ basis state. result ≡ report_count (events basis state.log)) }
    {
        self.ledger.reports()
    }

    /// How often a crash was asked for.
    pub fn asks(&self) -> u64
        ensures count { result ≡ ask_count (log_in self.now) }
        ensures of_log { ForEachState self.now
            (λ basis state. result ≡ ask_count (events basis state.log)) }
    {
        self.ledger.asks()
    }

    /// How many crashes are due.
    pub fn due(&self) -> u32
        ensures count { result ≡ length (due_ids (log_in self.now)) }
        ensures of_log { ForEachState self.now
            (λ basis state. result ≡ length (due_ids (events basis state.log))) }
    {
        self.ledger.due()
    }

    /// What the log has, counted, where the caller may operate the service.
    pub(crate) fn counts_by(&mut self, caller: &Caller) -> Reply
        ensures setting { SameSetting self.old self.new }
        ensures kind { IsReplyTo (Command.Counts caller.now) result }
        ensures does { Serves self.old (Command.Counts caller.now) result self.new }
    {
        match check(caller, Permission::Operate) {
            Ok(()) => Reply::Counted(self.counted()),
            Err(refusal) => Reply::Refused(refusal),
        }
    }

    /// What the log has, counted.
    fn counted(&self) -> Counts
        ensures of_log { ForEachState self.now (λ basis state. result
            ≡ counts_with (events basis state.log) (doubted basis state) result.journal_size) }
        ensures size { ForEachState self.now (λ basis state. IsTrue basis.is_told
            → result.journal_size ≡ journal_size state.log) }
    {
        Counts {
            asks: self.asks(),
            crashes: self.crashes(),
            due: self.due(),
            journal_size: self.vault.size(),
            reports: self.reports(),
            withdrawn: self.withdrawn(),
            in_doubt: self.doubt.is_some(),
        }
    }

    /// The due crash at this place, from 0.
    pub fn due_at(&self, i: u32) -> CrashId
        requires { i < length (due_ids (log_in self.now)) }
        ensures due { slice_get (due_ids (log_in self.now)) i ≡ Some result }
        ensures of_log { ForEachState self.now
            (λ basis state. slice_get (due_ids (events basis state.log)) i ≡ Some result) }
    {
        self.ledger.crash(self.ledger.due_at(i)).filed.id
    }

    /// The first due crash.
    pub fn take_due(&self) -> Option<CrashId>
        ensures due { result ≡ slice_get (due_ids (log_in self.now)) 0 }
        ensures of_log { ForEachState self.now
            (λ basis state. result ≡ slice_get (due_ids (events basis state.log)) 0) }
    {
        if self.due() == 0 {
            return None;
        }
        Some(self.due_at(0))
    }
}
