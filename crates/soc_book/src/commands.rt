//! The commands.
ghost use Rattle.std.specs.Prelude.{◌≡◌, None, Some, MatchResult};
ghost use Rattle.soc_desk.specs.Decisions.{without};
ghost use Rattle.soc_desk.specs.Kinds.{IsReplyTo};
ghost use Rattle.soc_book.specs.Books.{AllowsBook, AsksBook, SameSetting, ServesByRows};
ghost use Rattle.soc_book.specs.inner.Books.{reply_of};
ghost use Rattle.soc_book.specs.inner.Prepared.{IsPlain};

use crate::book::Book;
use crate::prepared::{Prepared, Work};
use soc_desk::{Command, Desk, Receipt, Refusal, Reply};
use soc_edge::Disk;
use soc_schema::{Caller, Permission, Reporter};

impl<'a, D: Disk, R: Reporter> Book<'a, D, R> {
    /// Carries out a command that was prepared.
    pub fn ask_prepared(&mut self, prepared: Prepared) -> Receipt
        requires { AllowsBook self.old prepared }
        ensures setting { SameSetting self.old self.new }
        ensures kind { IsReplyTo prepared result.reply }
        ensures asks { AsksBook self.old prepared result self.new }
    {
        let reply = self.reply(prepared);
        Receipt {
            front: self.ledger.front(),
            stopped: self.ledger.is_stopped(),
            reply,
        }
    }

    /// The reply to a command that was prepared.
    fn reply(&mut self, prepared: Prepared) -> Reply
        requires { AllowsBook self.old prepared }
        ensures setting { SameSetting self.old self.new }
        ensures kind { IsReplyTo prepared result }
        ensures does { ServesByRows self.old prepared result self.new }
    {
        let Prepared { work } = prepared;
        match work {
            Work::Submit { raw: _, submission } => self.submit(submission),
            Work::Priority { caller, id, entry } => self.prioritise(&caller, id, entry),
            Work::Reprocess { caller, id, entry } => self.reprocess(&caller, id, entry),
            Work::Withdraw { caller, id, entry } => self.withdraw(&caller, id, entry),
            Work::Plain(command) => self.plain_reply(command),
        }
    }

    /// The reply to a command of which nothing was prepared.
    fn plain_reply(&mut self, command: Command) -> Reply
        requires plain { IsPlain command }
        requires allowed { AllowsBook self.old command }
        ensures setting { SameSetting self.old self.new }
        ensures kind { IsReplyTo command result }
        ensures does { ServesByRows self.old command result self.new }
    {
        match command {
            Command::Raw { caller, id } => self.raw(&caller, id),
            Command::Processed { caller, id } => self.processed(&caller, id),
            Command::Dump { caller, id, name } => self.dump(&caller, id, name.as_str()),
            Command::Stack { caller, id } => self.stack(&caller, id),
            Command::Search { query } => self.search(&query),
            Command::Tops { query } => self.tops(&query),
            Command::Turn { caller } => self.turn_by(&caller),
            Command::Drain { caller } => self.drain_by(&caller),
            Command::Stop { caller } => self.stop_by(&caller),
            Command::Fetch { id } => self.fetch(id),
            Command::Finish { processed } => self.finish(processed),
            Command::Counts { caller } => self.counts_by(&caller),
            Command::Submit { .. }
            | Command::Priority { .. }
            | Command::Reprocess { .. }
            | Command::Withdraw { .. } => unreachable!(),
        }
    }
}

impl<'a, D: Disk, R: Reporter> Desk for Book<'a, D, R> {
    ghost use Rattle.soc_book.specs.Books.{AllowsBook, AsksBook, SameSetting, allows_others};

    ghost Allows = { AllowsBook };

    ghost Asks = { λ before command receipt after. SameSetting before after
        × AsksBook before command receipt after };

    fn ask(&mut self, command: Command) -> Receipt {
        let prepared = Prepared::new(self.alloc, command);
        self.ask_prepared(prepared)
    }

    ghost allows_others = { allows_others };
}

/// Refuses a caller that lacks a permission.
pub(crate) fn check(caller: &Caller, name: Permission) -> Result<(), Refusal>
    ensures { MatchResult result (λ _. without caller.now name ≡ None)
        (λ refusal. (without caller.now name ≡ Some name) × (refusal ≡ Refusal.NoPermission name)) }
{
    if caller.permissions.has(name) {
        Ok(())
    } else {
        Err(Refusal::NoPermission { name })
    }
}

/// The reply that a command came to.
pub(crate) fn reply_of(answer: Result<Reply, Refusal>) -> Reply
    ensures { result ≡ reply_of answer }
{
    match answer {
        Ok(reply) => reply,
        Err(refusal) => Reply::Refused(refusal),
    }
}
