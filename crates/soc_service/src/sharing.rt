//! A desk that threads share.
use crate::change::Change;
use soc_desk::{Command, Receipt};
use soc_hall::Logged;
use soc_raw::CrashId;
use std::alloc::Global;

/// A desk as the state of a hall. It keeps a log of changes, and each turn answers one command.
pub trait SharedDesk: Logged<Reply = Receipt, Change = Change> {
    ghost use Rattle.std.specs.Prelude.{◌≡◌, List, slice_get};
    ghost use Rattle.soc_ledger.specs.Due.{due_ids};
    ghost use Rattle.soc_desk.specs.declared.desk.Command.{Command};
    ghost use Rattle.soc_desk.specs.declared.desk.Receipt.{Receipt};
    ghost use Rattle.soc_desk.specs.Basis.{Basis};
    ghost use Rattle.soc_desk.specs.Kinds.{IsReplyTo};
    ghost use Rattle.soc_service.specs.declared.change.Change.{Change};
    ghost use Rattle.soc_service.specs.Answers.{MayAsk, TellsAnswers};
    ghost use Rattle.soc_service.specs.Changes.{events_in};

    // The command of which what its turn writes was prepared.
    ghost command_of: { Self.Command → Command };

    // The desk's basis, by what no turn changes.
    ghost desk_of: { Self.Basis → Basis };

    /// Prepares what the command's turn writes.
    fn prepare(alloc: Global, command: Command) -> Self::Command
        ensures { command_of result ≡ command };

    /// The crash that is due at this place, from 0.
    fn due_at(&self, place: u32) -> Option<CrashId>
        ensures { result ≡ slice_get (due_ids (events_in (Self.log_of self.now))) place };

    // When a command may be asked.
    ghost allows: { (basis : Self.Basis) (log : List Change) (prepared : Self.Command)
        → MayAsk (desk_of basis) log (command_of prepared) → Self.may_ask basis log prepared };

    // A turn gives a reply of the command's kind.
    ghost replies: { (before : Self) (prepared : Self.Command) (receipt : Receipt) (after : Self)
        → Self.asks before prepared receipt after → IsReplyTo (command_of prepared) receipt.reply };

    // What a turn gives its seat.
    ghost tells: { TellsAnswers command_of desk_of Self.answers };
}
