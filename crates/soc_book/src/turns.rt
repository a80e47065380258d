//! Processing, and the stop.
ghost use Rattle.std.specs.Prelude.{◌≡◌, ◌<◌, IfErr, IsTrue, List, MatchResult, None, Some, ◌∷◌, [], length};
ghost use Rattle.std.specs.Option.{option_map};
ghost use Rattle.soc_schema.specs.declared.caller.Caller.{Caller};
ghost use Rattle.soc_schema.specs.declared.permission.Permission.TheVariants as Permission;
ghost use Rattle.soc_edge.specs.Disk.{Looks};
ghost use Rattle.soc_ledger.specs.Due.{is_due};
ghost use Rattle.soc_ledger.specs.State.{id_of};
ghost use Rattle.soc_desk.specs.Basis.{Basis};
ghost use Rattle.soc_desk.specs.Decisions.{without};
ghost use Rattle.soc_desk.specs.Desk.{IsOfLog, with_done};
ghost use Rattle.soc_desk.specs.Kinds.{IsNoMemory, IsReplyTo, RefusesTurn};
ghost use Rattle.soc_desk.specs.Log.{events, raw_of};
ghost use Rattle.soc_desk.specs.State.{State};
ghost use Rattle.soc_book.specs.Books.{SameSetting, Serves, ServesByRows, ServesIf, StandsFor, disk_in, disk_of, reporter_of};
ghost use Rattle.soc_book.specs.inner.Books.{reply_of};
ghost use Rattle.soc_book.specs.inner.Steps.{Becomes};
ghost use Rattle.soc_book.specs.inner.Turns.{TurnsTo};

use crate::book::Book;
use crate::commands::{check, reply_of};
use crate::report::with_product;
use crate::writes::make_room;
use soc_desk::{Command, Refusal, Reply};
use soc_edge::Disk;
use soc_raw::CrashId;
use soc_schema::{Caller, Permission, Processed, Reporter, Row};

impl<'a, D: Disk, R: Reporter> Book<'a, D, R> {
    /// Processes the first crash that is due.
    pub fn turn(&mut self) -> Reply
        ensures setting { SameSetting self.old self.new }
        ensures kind { (caller : Caller) → without caller Permission.Operate ≡ None
            → IsReplyTo (Command.Turn caller) result }
        ensures does { (caller : Caller) → without caller Permission.Operate ≡ None
            → ServesByRows self.old (Command.Turn caller) result self.new }
    {
        match self.process_first() {
            Ok(processed) => Reply::Turned(processed),
            Err(refusal) => Reply::Refused(refusal),
        }
    }

    /// Processes each crash that is due. The turns that were made before a refusal stay.
    pub fn drain(&mut self) -> Reply
        ensures setting { SameSetting self.old self.new }
        ensures looks { Looks (disk_of self.old) (disk_of self.new) }
        ensures kind { (caller : Caller) → without caller Permission.Operate ≡ None
            → IsReplyTo (Command.Drain caller) result }
        ensures does { (caller : Caller) → without caller Permission.Operate ≡ None
            → ServesByRows self.old (Command.Drain caller) result self.new }
    {
        let due = self.ledger.due();
        for turns in 0..due {
            if let Err(refusal) = self.process_first() {
                return Reply::Refused(refusal);
            }
        }
        Reply::Drained(u64::from(due))
    }

    /// Hands out the raw crash of a due crash.
    pub fn fetch(&mut self, id: CrashId) -> Reply
        ensures setting { SameSetting self.old self.new }
        ensures kind { IsReplyTo (Command.Fetch id) result }
        ensures does { Serves self.old (Command.Fetch id) result self.new }
    {
        reply_of(self.raw_if_due(id))
    }

    /// Gives a due crash the row that the book's own reporter made of its raw crash.
    pub fn finish(&mut self, processed: Processed) -> Reply
        ensures setting { SameSetting self.old self.new }
        ensures kind { IsReplyTo (Command.Finish processed) result }
        ensures does { ServesIf (λ basis state. IsTrue basis.is_told
            → IsTrue (is_due (events basis state.log) processed.crash.id)
            → IsOfLog basis state.log processed)
            self.old (Command.Finish processed) result self.new }
    {
        let id = processed.raw().id;
        let Some(number) = self.held(id) else {
            return Reply::Finished { changed: false };
        };
        if self.ledger.crash(number).standing.due_since.is_none() {
            return Reply::Finished { changed: false };
        }
        match self.put_row(number, processed.into_row()) {
            Ok(()) => Reply::Finished { changed: true },
            Err(refusal) => Reply::Refused(refusal),
        }
    }

    /// A turn, where the caller may operate the service.
    pub(crate) fn turn_by(&mut self, caller: &Caller) -> Reply
        ensures setting { SameSetting self.old self.new }
        ensures kind { IsReplyTo (Command.Turn caller.now) result }
        ensures does { ServesByRows self.old (Command.Turn caller.now) result self.new }
    {
        match check(caller, Permission::Operate) {
            Ok(()) => self.turn(),
            Err(refusal) => Reply::Refused(refusal),
        }
    }

    /// A drain, where the caller may operate the service.
    pub(crate) fn drain_by(&mut self, caller: &Caller) -> Reply
        ensures setting { SameSetting self.old self.new }
        ensures kind { IsReplyTo (Command.Drain caller.now) result }
        ensures does { ServesByRows self.old (Command.Drain caller.now) result self.new }
    {
        match check(caller, Permission::Operate) {
            Ok(()) => self.drain(),
            Err(refusal) => Reply::Refused(refusal),
        }
    }

    /// Stops the service, where the caller may operate it.
    pub(crate) fn stop_by(&mut self, caller: &Caller) -> Reply
        ensures setting { SameSetting self.old self.new }
        ensures kind { IsReplyTo (Command.Stop caller.now) result }
        ensures does { Serves self.old (Command.Stop caller.now) result self.new }
    {
        reply_of(self.stop(caller))
    }

    fn stop(&mut self, caller: &Caller) -> Result<Reply, Refusal>
        ensures setting { SameSetting self.old self.new }
        ensures kind { IsReplyTo (Command.Stop caller.now) (reply_of result) }
        ensures does { Serves self.old (Command.Stop caller.now) (reply_of result) self.new }
    {
        check(caller, Permission::Operate)?;
        if self.ledger.is_stopped() {
            return Ok(Reply::Stopping);
        }
        make_room(&mut self.ledger)?;
        self.ledger.stop();
        Ok(Reply::Stopping)
    }

    fn raw_if_due(&mut self, id: CrashId) -> Result<Reply, Refusal>
        ensures setting { SameSetting self.old self.new }
        ensures kind { IsReplyTo (Command.Fetch id) (reply_of result) }
        ensures does { Serves self.old (Command.Fetch id) (reply_of result) self.new }
    {
        let Some(number) = self.held(id) else {
            return Err(Refusal::NoCrash);
        };
        if self.ledger.crash(number).standing.due_since.is_none() {
            return Ok(Reply::Fetched(None));
        }
        let raw = self.read(number)?;
        Ok(Reply::Fetched(Some(raw)))
    }

    /// Gives the first due crash its row, where one is due.
    fn process_first(&mut self) -> Result<Option<CrashId>, Refusal>
        ensures setting { SameSetting self.old self.new }
        ensures refusal { IfErr result RefusesTurn }
        ensures looks { Looks (disk_of self.old) (disk_of self.new) }
        ensures turns { (basis : Basis) (state : State)
            → basis.row_of ≡ R.row_of (reporter_of self.old)
            → StandsFor basis self.old state
            → Becomes basis self.new (λ later. TurnsTo basis state result later
            (disk_of self.old) (disk_of self.new)) }
    {
        if self.ledger.due() == 0 {
            return Ok(None);
        }
        let number = self.ledger.due_at(0);
        let raw = self.read(number)?;
        let row = self.reporter.row(self.alloc, &raw)?;
        self.put_row(number, row)?;
        Ok(Some(raw.id))
    }

    /// Gives the due crash of a number its row, in the stead of the one that it has.
    fn put_row(&mut self, number: u32, row: Row) -> Result<(), Refusal>
        requires within { number < length self.old.ledger.crashes }
        requires due { IsTrue (is_due self.old.ledger.log (id_of self.old.ledger number)) }
        ensures setting { SameSetting self.old self.new }
        ensures refusal { IfErr result IsNoMemory }
        ensures disk { disk_in self.new ≡ disk_in self.old }
        ensures puts { (basis : Basis) (state : State) → (IsTrue basis.is_told
            → option_map basis.row_of (raw_of state.log (id_of self.old.ledger number)) ≡ Some row)
            → StandsFor basis self.old state → MatchResult result
            (λ _. StandsFor basis self.new (with_done state (id_of self.old.ledger number ∷ [])))
            (λ refusal. (refusal ≡ Refusal.NoMemory) × StandsFor basis self.new state) }
    {
        make_room(&mut self.ledger)?;
        let row = with_product(row, &self.ledger.crash(number).filed.product);
        let Ok(()) = self.store.put(self.alloc, number, row) else {
            return Err(Refusal::NoMemory);
        };
        self.ledger.finish(number);
        Ok(())
    }
}
