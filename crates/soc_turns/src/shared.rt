//! A book as the state of a hall.
ghost use Rattle.std.specs.Prelude.{◌≡◌, slice_get};
ghost use Rattle.soc_ledger.specs.Due.{due_ids};
ghost use Rattle.soc_desk.specs.Basis.{Basis};
ghost use Rattle.soc_desk.specs.State.{State};
ghost use Rattle.soc_book.specs.Books.{StandsFor, disk_in, lent_to, limits_of, log_in, reporter_of};
ghost use Rattle.soc_book.specs.Openings.{IsSettled, RestoredFor, Restores};
ghost use Rattle.soc_turns.specs.Grounds.{basis_of, desk_by};
ghost use Rattle.soc_turns.specs.Runs.{RunsFrom};

use crate::grounds::Grounds;
use soc_book::{Book, Prepared, Restored};
use soc_desk::{Command, Limits, Receipt};
use soc_edge::{Disk, Telling};
use soc_hall::Logged;
use soc_raw::CrashId;
use soc_schema::Reporter;
use soc_service::{Change, SharedDesk};
use std::alloc::Global;
use std::snapshot::Snapshot;

/// A book that stands for a state of the desk's log.
#[derive(Drop)]
pub struct SharedBook<'a, D: Telling, R: Reporter> {
    pub(crate) book: Book<'a, D, R>,
    // The book as it was when it was opened.
    pub(crate) opened: Snapshot<Book<'a, D, R>>,
    ghost stands: { ∥ ((state : State)
        × StandsFor (basis_of D.tells book) book state) ∥₁ },
    ghost runs: { ∥ RunsFrom (basis_of D.tells book) opened.value book ∥₁ },
}

impl<'a, D: Telling, R: Reporter> SharedBook<'a, D, R> {
    /// The book over a disk whose journal was read with the same reporter and limits. Before it was read the disk was so.
    pub fn over(
        alloc: Global,
        disk: &'a mut D,
        reporter: &'a R,
        limits: Limits,
        restored: Restored,
        opened: Snapshot<D>,
    ) -> SharedBook<'a, D, R>
        requires settled { IsSettled restored }
        requires opens { Restores (R.row_of reporter.now) (R.digest_of reporter.now) limits
            (D.state opened.value) restored (D.state disk.old) }
        ensures same_disk { lent_to result.book ≡ disk.entry.ghost_name }
        ensures disk { disk_in result.book ≡ disk.old }
        ensures limits { limits_of result.book ≡ limits }
        ensures reporter { reporter_of result.book ≡ reporter.now }
        ensures stands { (basis : Basis) (state : State)
            → RestoredFor basis limits restored (D.state disk.old) state
            → StandsFor basis result.book state }
        ensures opened { result.opened.value ≡ result.book }
    {
        let _ = opened;
        SharedBook::new(Book::over(alloc, disk, reporter, limits, restored))
    }

    /// A book to be shared.
    fn new(book: Book<'a, D, R>) -> SharedBook<'a, D, R>
        requires { (state : State) × StandsFor (basis_of D.tells book) book state }
        ensures book { result.book ≡ book.entry }
        ensures opened { result.opened.value ≡ result.book }
    {
        let opened = Snapshot::of(&book);
        SharedBook { book, opened }
    }

    // The crash that is due at this place, from 0, by the book's ledger.
    fn due_in_ledger(&self, place: u32) -> Option<CrashId>
        ensures { result ≡ slice_get (due_ids (log_in self.now.book)) place }
    {
        if place < self.book.due() {
            Some(self.book.due_at(place))
        } else {
            None
        }
    }

    /// The book.
    pub fn into_book(self) -> Book<'a, D, R>
        ensures { result ≡ self.entry.book }
    {
        self.book
    }
}

impl<'a, D: Telling, R: Reporter> Logged for SharedBook<'a, D, R> {
    ghost use Rattle.soc_desk.specs.Kinds.{IsReplyTo};
    ghost use Rattle.soc_book.specs.Books.{AsksBook, SameSetting, disk_of, lent_to, limits_of, log_in, reporter_of};
    ghost use Rattle.soc_turns.specs.Changes.{changes_at};
    ghost use Rattle.soc_service.specs.Answers.{Answers, MayAsk};
    ghost use Rattle.soc_service.specs.inner.Stays.{may_still};

    type Command = Prepared;

    type Reply = Receipt;

    type Change = Change;

    type Basis = Grounds<R, Book<'a, D, R>>;

    ghost log_of = { λ s. changes_at D.tells (disk_of s.book).content (log_in s.book) };

    ghost basis_of = { λ s. record {
      reporter = reporter_of s.book;
      limits = limits_of s.book;
      lent = lent_to s.book;
      opened = s.opened.value;
    } };

    ghost asks = { λ before command receipt after.
        SameSetting before.book after.book × IsReplyTo command receipt.reply
        × AsksBook before.book command receipt after.book };

    ghost answers = { λ basis log command receipt log'.
        ∥ Answers (desk_by R.row_of R.digest_of D.tells basis) log command receipt log' ∥₁ };

    ghost may_ask = { λ basis log command.
        MayAsk (desk_by R.row_of R.digest_of D.tells basis) log command };

    fn turn(&mut self, command: Prepared) -> Receipt {
        self.book.ask_prepared(command)
    }

    fn front(&self) -> u64 {
        self.book.front()
    }

    ghost may_still = { λ basis log more command may.
        may_still (desk_by R.row_of R.digest_of D.tells basis) log more command may };
}

impl<'a, D: Telling, R: Reporter> SharedDesk for SharedBook<'a, D, R> {
    ghost command_of = { λ prepared. prepared };

    ghost desk_of = { desk_by R.row_of R.digest_of D.tells };

    fn prepare(alloc: Global, command: Command) -> Prepared {
        Prepared::new(alloc, command)
    }

    fn due_at(&self, place: u32) -> Option<CrashId> {
        self.due_in_ledger(place)
    }

    ghost allows = { λ _ _ _ may. may };

    ghost replies = { λ _ _ _ _ asked. asked.1 };

    ghost tells = { λ _ _ _ _ _ answers. answers };
}
