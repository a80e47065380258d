//! Asks for crashes, and withdrawals.
ghost use Rattle.std.specs.Prelude.{◌≡◌, ◌<◌, ◌||◌, length, IfOk, List, None, true};
ghost use Rattle.soc_ledger.specs.Due.{is_due};
ghost use Rattle.soc_ledger.specs.Reported.{has_report};
ghost use Rattle.soc_ledger.specs.State.{id_of};
ghost use Rattle.soc_desk.specs.Basis.{Basis};
ghost use Rattle.soc_desk.specs.Decisions.{lacked};
ghost use Rattle.soc_desk.specs.Kinds.{IsReplyTo};
ghost use Rattle.soc_desk.specs.Log.{Change as Logged, ask, withdraw};
ghost use Rattle.soc_desk.specs.State.{entry_of, settled};
ghost use Rattle.soc_book.specs.Books.{SameSetting, Serves, StandsFor, disk_of};
ghost use Rattle.soc_book.specs.inner.Pieces.{IsHeldAs, IsWriteReply, IsWritten};
ghost use Rattle.soc_book.specs.inner.Steps.{Becomes, DecidesBook};

use crate::book::{Book, Change};
use crate::commands::check;
use soc_base::NoMemory;
use soc_desk::{Command, Refusal, Reply};
use soc_edge::Disk;
use soc_journal::EntryText;
use soc_raw::CrashId;
use soc_schema::{Caller, Permission, Reporter};

impl<'a, D: Disk, R: Reporter> Book<'a, D, R> {
    /// Has a crash processed, unless it has a report.
    pub(crate) fn prioritise(
        &mut self,
        caller: &Caller,
        id: CrashId,
        entry: Result<EntryText, NoMemory>,
    ) -> Reply
        requires { IfOk entry (λ entry. entry ≡ entry_of (ask id)) }
        ensures setting { SameSetting self.old self.new }
        ensures kind { IsReplyTo (Command.Priority caller.now id) result }
        ensures does { Serves self.old (Command.Priority caller.now id) result self.new }
    {
        match self.begin(entry) {
            Ok(entry) => self.prioritise_settled(caller, id, &entry),
            Err(refusal) => Reply::Refused(refusal),
        }
    }

    /// Has a crash processed, again where it has a report.
    pub(crate) fn reprocess(
        &mut self,
        caller: &Caller,
        id: CrashId,
        entry: Result<EntryText, NoMemory>,
    ) -> Reply
        requires { IfOk entry (λ entry. entry ≡ entry_of (ask id)) }
        ensures setting { SameSetting self.old self.new }
        ensures kind { IsReplyTo (Command.Reprocess caller.now id) result }
        ensures does { Serves self.old (Command.Reprocess caller.now id) result self.new }
    {
        if let Err(refusal) = check(caller, Permission::ReprocessCrashes) {
            return Reply::Refused(refusal);
        }
        match self.begin(entry) {
            Ok(entry) => self.reprocess_settled(caller, id, &entry),
            Err(refusal) => Reply::Refused(refusal),
        }
    }

    /// Shows a crash nowhere any longer. Its id stays taken.
    pub(crate) fn withdraw(
        &mut self,
        caller: &Caller,
        id: CrashId,
        entry: Result<EntryText, NoMemory>,
    ) -> Reply
        requires { IfOk entry (λ entry. entry ≡ entry_of (withdraw id)) }
        ensures setting { SameSetting self.old self.new }
        ensures kind { IsReplyTo (Command.Withdraw caller.now id) result }
        ensures does { Serves self.old (Command.Withdraw caller.now id) result self.new }
    {
        if let Err(refusal) = check(caller, Permission::Operate) {
            return Reply::Refused(refusal);
        }
        match self.begin(entry) {
            Ok(entry) => self.withdraw_settled(caller, id, &entry),
            Err(refusal) => Reply::Refused(refusal),
        }
    }

    fn prioritise_settled(&mut self, caller: &Caller, id: CrashId, entry: &EntryText) -> Reply
        requires settled { self.old.vault.journal.doubt ≡ None }
        requires room { 0 < self.old.ledger.room }
        requires entry { entry.now ≡ entry_of (ask id) }
        ensures setting { SameSetting self.old self.new }
        ensures kind { IsReplyTo (Command.Priority caller.now id) result }
        ensures decided { DecidesBook self.old (Command.Priority caller.now id) result self.new }
    {
        let number = match self.seen(caller, id) {
            Ok(number) => number,
            Err(refusal) => return Reply::Refused(refusal),
        };
        if self.is_due_or_reported(number) {
            return Reply::Asked {
                asked: false,
                due: false,
            };
        }
        self.ask_for(number, id, entry)
    }

    fn reprocess_settled(&mut self, caller: &Caller, id: CrashId, entry: &EntryText) -> Reply
        requires settled { self.old.vault.journal.doubt ≡ None }
        requires room { 0 < self.old.ledger.room }
        requires entry { entry.now ≡ entry_of (ask id) }
        requires permitted { lacked (Command.Reprocess caller.now id) ≡ None }
        ensures setting { SameSetting self.old self.new }
        ensures kind { IsReplyTo (Command.Reprocess caller.now id) result }
        ensures decided { DecidesBook self.old (Command.Reprocess caller.now id) result self.new }
    {
        let number = match self.seen(caller, id) {
            Ok(number) => number,
            Err(refusal) => return Reply::Refused(refusal),
        };
        self.ask_for(number, id, entry)
    }

    fn withdraw_settled(&mut self, caller: &Caller, id: CrashId, entry: &EntryText) -> Reply
        requires settled { self.old.vault.journal.doubt ≡ None }
        requires room { 0 < self.old.ledger.room }
        requires entry { entry.now ≡ entry_of (withdraw id) }
        requires permitted { lacked (Command.Withdraw caller.now id) ≡ None }
        ensures setting { SameSetting self.old self.new }
        ensures kind { IsReplyTo (Command.Withdraw caller.now id) result }
        ensures decided { DecidesBook self.old (Command.Withdraw caller.now id) result self.new }
    {
        let number = match self.seen(caller, id) {
            Ok(number) => number,
            Err(refusal) => return Reply::Refused(refusal),
        };
        self.write(entry, Change::Withdraw(number), Reply::Withdrawn)
    }

    /// Whether the crash of a number is due, or has a report.
    fn is_due_or_reported(&self, number: u32) -> bool
        requires { number < length self.now.ledger.crashes }
        ensures { result ≡ (is_due self.now.ledger.log (id_of self.now.ledger number)
            || has_report self.now.ledger.log (id_of self.now.ledger number)) }
    {
        let standing = self.ledger.crash(number).standing;
        standing.due_since.is_some() || standing.has_report
    }

    /// Asks for the held crash of a number.
    fn ask_for(&mut self, number: u32, id: CrashId, entry: &EntryText) -> Reply
        requires settled { self.old.vault.journal.doubt ≡ None }
        requires room { 0 < self.old.ledger.room }
        requires entry { entry.now ≡ entry_of (ask id) }
        requires held { IsHeldAs self.old.ledger id number }
        ensures setting { SameSetting self.old self.new }
        ensures kind { IsWriteReply (Reply.Asked true true) result }
        ensures writes { (basis : Basis) (log : List Logged)
            → StandsFor basis self.old (settled log)
            → Becomes basis self.new (λ later. IsWritten basis log (disk_of self.old)
            (ask id) (Reply.Asked true true) result later (disk_of self.new)) }
    {
        let written = Reply::Asked {
            asked: true,
            due: true,
        };
        self.write(entry, Change::Ask(number), written)
    }
}
