//! A desk that asks its commands in a hall.
ghost use Rattle.std.specs.Prelude.{◌≡◌, ◌≤◌, Some, false, IfSome, IsSomeAnd, length};
ghost use Rattle.soc_hall.specs.Seats.{IsSeatOf, known_of, seen_of};
ghost use Rattle.soc_pool.specs.Passes.{IsPassOf};
ghost use Rattle.soc_service.specs.Desks.{HasTurned, PutsJob, TakesTurn};
ghost use Rattle.soc_service.specs.Turns.{MayTurn};

use crate::due::{asked_id, due_after, is_either, keeps_all, kept_between};
use crate::gate::{Gate, Point};
use crate::sharing::SharedDesk;
use crate::site::Site;
use crate::turn::take_turn;
use soc_desk::{Command, Desk, KeepingDesk, Receipt};
use soc_hall::{Hall, Seat};
use soc_pool::{Jobs, Pass};
use soc_raw::CrashId;
use std::alloc::Global;
use std::snapshot::Snapshot;
use std::sync::Wait;

/// A desk that asks each command in a turn of its seat in a hall, and puts the job of a crash that becomes due into a ring.
#[derive(Drop)]
pub struct HallDesk<'h, T: SharedDesk, G: Gate, W: Wait> {
    rt: &'h W,
    alloc: Global,
    hall: &'h Hall<T>,
    jobs: &'h Jobs,
    gate: &'h G,
    // There, but for the middle of a turn.
    seat: Option<Seat<T>>,
    pass: Option<Pass>,
    // The seat as it was when the desk was made.
    began: Snapshot<Seat<T>>,
    stopped: bool,
    kept: u64,
    ghost sits: { ∥ IsSomeAnd seat
        (λ s. IsSeatOf hall.now s × (kept ≤ length (seen_of (known_of s)))) ∥₁ },
    ghost turned: { ∥ IsSomeAnd seat (λ s. HasTurned (known_of began.value) (known_of s) kept) ∥₁ },
    ghost passes: { ∥ IsSomeAnd pass (λ p. IsPassOf jobs.now p) ∥₁ },
}

impl<'h, T: SharedDesk, G: Gate, W: Wait> HallDesk<'h, T, G, W> {
    /// A desk that takes its turns by this seat, and puts jobs by this pass.
    pub fn new(site: &Site<'h, T, G, W>, seat: Seat<T>, pass: Pass) -> HallDesk<'h, T, G, W>
        requires seat { IsSeatOf site.now.hall.now seat }
        requires pass { IsPassOf site.now.jobs.now pass }
        ensures hall { result.hall.now ≡ site.now.hall.now }
        ensures jobs { result.jobs.now ≡ site.now.jobs.now }
        ensures seat { result.seat ≡ Some seat }
        ensures pass { result.pass ≡ Some pass }
        ensures began { result.began.value ≡ seat }
        ensures stopped { result.stopped ≡ false }
        ensures kept { result.kept ≡ 0 }
    {
        let began = Snapshot::of(&seat);
        HallDesk {
            rt: site.rt,
            alloc: site.alloc,
            hall: site.hall,
            jobs: site.jobs,
            gate: site.gate,
            seat: Some(seat),
            pass: Some(pass),
            began,
            stopped: false,
            kept: 0,
        }
    }

    /// Whether a receipt that it gave said stopped.
    pub fn stopped(&self) -> bool
        ensures { result ≡ self.now.stopped }
    {
        self.stopped
    }

    /// How many changes its turns added that the journal keeps, and stops.
    pub fn kept(&self) -> u64
        ensures { result ≡ self.now.kept }
    {
        self.kept
    }

    /// Its seat and its pass.
    pub fn end(self) -> (Seat<T>, Pass)
        ensures seat { (self.entry.seat ≡ Some result.0) × IsSeatOf self.entry.hall.now result.0 }
        ensures turned { ∥ HasTurned (known_of self.entry.began.value)
            (known_of result.0) self.entry.kept ∥₁ }
        ensures pass { (self.entry.pass ≡ Some result.1) × IsPassOf self.entry.jobs.now result.1 }
    {
        let (Some(seat), Some(pass)) = (self.seat, self.pass) else {
            unreachable!()
        };
        (seat, pass)
    }

    // Asks the command in one turn.
    fn turn(&mut self, command: Command) -> Receipt
        requires { IfSome self.old.seat (λ s. MayTurn T.desk_of (known_of s) command) }
        ensures same { (self.new.hall ≡ self.old.hall) × (self.new.jobs ≡ self.old.jobs)
            × (self.new.pass ≡ self.old.pass) × (self.new.stopped ≡ self.old.stopped)
            × (self.new.began ≡ self.old.began) }
        ensures turn { TakesTurn T.Logged T.command_of
            self.old.seat self.old.kept command result self.new.seat self.new.kept }
    {
        let Some(seat) = self.seat.take() else {
            unreachable!()
        };
        let keeps = keeps_all(&command);
        let (seat, answer) = take_turn(self.rt, self.alloc, self.hall, seat, command);
        let kept = kept_between(keeps, answer.start, answer.front);
        self.seat = Some(seat);
        self.kept += kept;
        answer.reply
    }

    // Puts the job of a crash, where there is one, once. Where the ring is full the crash waits for a place.
    fn put(&mut self, due: Option<CrashId>)
        ensures same { (self.new.hall ≡ self.old.hall) × (self.new.jobs ≡ self.old.jobs)
            × (self.new.seat ≡ self.old.seat) × (self.new.stopped ≡ self.old.stopped)
            × (self.new.kept ≡ self.old.kept) × (self.new.began ≡ self.old.began) }
        ensures put { IsSomeAnd self.old.pass
            (λ p. IsSomeAnd self.new.pass (λ q. PutsJob due p q)) }
    {
        let Some(id) = due else {
            return;
        };
        let Some(pass) = self.pass.take() else {
            unreachable!()
        };
        self.pass = Some(self.jobs.put_or_wait(self.rt, pass, id));
    }
}

impl<'h, T: SharedDesk, G: Gate, W: Wait> Desk for HallDesk<'h, T, G, W> {
    ghost use Rattle.std.specs.Prelude.{◌≡◌, IsSomeAnd, IfSome, ◌||◌};
    ghost use Rattle.soc_hall.specs.Seats.{known_of, seen_of};
    ghost use Rattle.soc_service.specs.Turns.{MayTurn};
    ghost use Rattle.soc_service.specs.inner.Stays.{may_others};
    ghost use Rattle.soc_service.specs.Desks.{PutsJob, TakesTurn};
    ghost use Rattle.soc_service.specs.Due.{asked_id, due_after};
    ghost use Rattle.soc_service.specs.inner.Options.{for_some};

    ghost Allows = { λ desk command.
        IfSome desk.seat (λ s. MayTurn T.desk_of (known_of s) command) };

    ghost Asks = { λ before command receipt after. (after.hall ≡ before.hall)
        × (after.jobs ≡ before.jobs)
        × TakesTurn T.Logged T.command_of
        before.seat before.kept command receipt after.seat after.kept
        × IsSomeAnd before.pass (λ p. IsSomeAnd after.pass
        (λ q. PutsJob (due_after (asked_id command) receipt.reply) p q))
        × (after.stopped ≡ (before.stopped || receipt.stopped))
        × (after.began ≡ before.began) };

    fn ask(&mut self, command: Command) -> Receipt {
        let asked = asked_id(&command);
        let receipt = self.turn(command);
        self.put(due_after(asked, &receipt.reply));
        self.stopped = is_either(self.stopped, receipt.stopped);
        self.gate.at(Point::Asked);
        receipt
    }

    ghost allows_others = { λ desk command needs_nothing.
        for_some desk.seat (λ s basis is.
        may_others (T.desk_of basis) (seen_of (known_of s)) command needs_nothing) };
}

impl<'h, T: SharedDesk, G: Gate, W: Wait> KeepingDesk for HallDesk<'h, T, G, W> {
    ghost use Rattle.soc_hall.specs.Seats.{IsSeatOf};
    ghost use Rattle.soc_service.specs.inner.Halls.{counted_grows};

    ghost added = { λ desk. desk.kept };

    fn kept(&self) -> u64 {
        HallDesk::kept(self)
    }

    ghost added_grows = { λ before command receipt after asked.
        counted_grows _ T.command_of T.desk_of T.tells before.seat after.seat before.kept after.kept
        command receipt (λ s. IsSeatOf after.hall.now s) asked.2 after.sits };
}
