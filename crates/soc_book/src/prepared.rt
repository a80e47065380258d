//! Commands whose costly part is done outside the desk's turn.
ghost use Rattle.std.specs.Prelude.{◌≡◌, IfOk};
ghost use Rattle.soc_desk.specs.Log.{ask as ask_change, withdraw as withdraw_change};
ghost use Rattle.soc_desk.specs.State.{entry_of};

use crate::submission::Submission;
use soc_base::NoMemory;
use soc_desk::Command;
use soc_journal::{ASK, EntryText, WITHDRAW};
use soc_raw::{CrashId, RawCrash};
use soc_schema::Caller;
use std::alloc::Global;
use std::marker::Model;
use std::snapshot::Snapshot;

/// A command whose entry's text, digest and places are computed, so that its turn at a desk is short.
///
/// Only the commands that write take memory here. Where an allocation failed, the turn answers `NoMemory`. Contracts see
/// the command alone.
#[derive(Drop)]
pub struct Prepared {
    pub(crate) work: Work,
}

impl Model for Prepared {
    ghost use Rattle.soc_desk.specs.declared.desk.Command.{Command};
    ghost use Rattle.soc_book.specs.inner.Prepared.{command_of, IsPrepared};

    ghost Value = { Command };

    ghost view = { λ p. command_of p.work };

    ghost invariant = { λ p. IsPrepared p.work };
}

/// A command with what is computed of it.
#[derive(Drop)]
pub(crate) enum Work {
    Submit {
        /// For contracts alone: the crash itself is let go.
        raw: Snapshot<RawCrash>,
        submission: Result<Submission, NoMemory>,
    },
    Priority {
        caller: Caller,
        id: CrashId,
        entry: Result<EntryText, NoMemory>,
    },
    Reprocess {
        caller: Caller,
        id: CrashId,
        entry: Result<EntryText, NoMemory>,
    },
    Withdraw {
        caller: Caller,
        id: CrashId,
        entry: Result<EntryText, NoMemory>,
    },
    /// A command of which nothing is computed before its turn.
    Plain(Command),
}

impl Prepared {
    /// Prepares a command.
    pub fn new(alloc: Global, command: Command) -> Prepared
        ensures { result ≡ command }
    {
        let work = match command {
            Command::Submit { raw } => {
                let submission = Submission::new(alloc, &raw);
                let raw = Snapshot::of(&raw);
                Work::Submit { raw, submission }
            }
            Command::Priority { caller, id } => Work::Priority {
                caller,
                id,
                entry: ask_text(alloc, id),
            },
            Command::Reprocess { caller, id } => Work::Reprocess {
                caller,
                id,
                entry: ask_text(alloc, id),
            },
            Command::Withdraw { caller, id } => Work::Withdraw {
                caller,
                id,
                entry: withdrawal_text(alloc, id),
            },
            other => Work::Plain(other),
        };
        Prepared { work }
    }
}

/// The entry that asks for a crash.
pub(crate) fn ask_text(alloc: Global, id: CrashId) -> Result<EntryText, NoMemory>
    ensures { IfOk result (λ entry. entry ≡ entry_of (ask_change id)) }
{
    EntryText::new(alloc, ASK, id.as_str().as_bytes())
}

/// The entry that withdraws a crash.
pub(crate) fn withdrawal_text(alloc: Global, id: CrashId) -> Result<EntryText, NoMemory>
    ensures { IfOk result (λ entry. entry ≡ entry_of (withdraw_change id)) }
{
    EntryText::new(alloc, WITHDRAW, id.as_str().as_bytes())
}
