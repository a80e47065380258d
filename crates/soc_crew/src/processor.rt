//! A processor: it makes the reports of the crashes whose jobs it takes.
ghost use Rattle.std.specs.Prelude.{◌≡◌, IfSome, IsSomeAnd};
ghost use Rattle.soc_hall.specs.Seats.{IsSeatOf, known_of};
ghost use Rattle.soc_pool.specs.Passes.{IsNew as IsNewPass, IsPassOf, seen_of};
ghost use Rattle.soc_service.specs.Desks.{HasTurned};
ghost use Rattle.soc_crew.specs.Jobs.{TakesToEnd};

use soc_hall::Seat;
use soc_pool::Pass;
use soc_schema::Reporter;
use soc_service::{Gate, SharedDesk, Site, WorkerStop, worker};
use std::snapshot::Snapshot;
use std::sync::Wait;
use std::sync::atomic::AtomicU64;
use std::time::Duration;

/// How long a processor waits for memory, in milliseconds.
const PAUSE: u64 = 100;

/// What a thread does, once.
pub(crate) trait Task {
    // Whether it may be done, and what it does.
    ghost Ready: { Self → Type 0 };

    ghost Did: { Self → Self → Type 0 };

    /// Does it.
    fn run(&mut self)
        requires ready { Ready self.old }
        ensures did { Did self.old self.new };
}

/// A processor: where it works, and its seat and pass.
#[derive(Drop)]
pub(crate) struct Processor<'h, T: SharedDesk, P: Reporter, G: Gate, R: Wait> {
    pub(crate) site: &'h Site<'h, T, G, R>,
    pub(crate) reporter: &'h P,
    // There, but while it works.
    pub(crate) seat: Option<Seat<T>>,
    pub(crate) pass: Option<Pass>,
    // The seat as it was at first.
    pub(crate) began: Snapshot<Seat<T>>,
}

impl<'h, T: SharedDesk, P: Reporter, G: Gate, R: Wait> Task for Processor<'h, T, P, G, R> {
    ghost use Rattle.std.specs.Prelude.{◌≡◌, IfSome, IsSomeAnd, Some};
    ghost use Rattle.soc_hall.specs.Seats.{IsSeatOf, known_of};
    ghost use Rattle.soc_pool.specs.Passes.{IsNew as IsNewPass, IsPassOf, seen_of};
    ghost use Rattle.soc_service.specs.Desks.{HasTurned};
    ghost use Rattle.soc_crew.specs.Jobs.{TakesToEnd};

    ghost Ready = { λ p. (p.seat ≡ Some p.began.value) × IsSeatOf p.site.now.hall.now p.began.value
        × IsSomeAnd p.pass (λ q. IsPassOf p.site.now.jobs.now q × IsNewPass q)
        × IfSome (known_of p.began.value).basis
        (λ basis. (T.desk_of basis).row_of ≡ P.row_of p.reporter.now) };

    ghost Did = { λ before after. (after.began ≡ before.began) × (after.site ≡ before.site)
        × IsSomeAnd after.seat (λ s. IsSeatOf before.site.now.hall.now s
        × HasTurned (known_of before.began.value) (known_of s) 0)
        × IsSomeAnd after.pass (λ q. IsPassOf before.site.now.jobs.now q × TakesToEnd (seen_of q)) };

    fn run(&mut self) {
        let (Some(seat), Some(pass)) = (self.seat.take(), self.pass.take()) else {
            unreachable!()
        };
        let (seat, pass) = work_on(self.site, self.reporter, seat, pass);
        self.seat = Some(seat);
        self.pass = Some(pass);
    }
}

/// Makes reports until it takes an `End`. Where memory is wanting it goes on after a pause, and the crash whose report
/// couldn't be made is left to the last sweep.
fn work_on<T: SharedDesk, P: Reporter, G: Gate, R: Wait>(
    site: &Site<'_, T, G, R>,
    reporter: &P,
    mut seat: Seat<T>,
    mut pass: Pass,
) -> (Seat<T>, Pass)
    requires seat { IsSeatOf site.now.hall.now seat }
    requires pass { IsPassOf site.now.jobs.now pass × IsNewPass pass }
    requires reporter { IfSome (known_of seat).basis
        (λ basis. (T.desk_of basis).row_of ≡ P.row_of reporter.now) }
    ensures seat { IsSeatOf site.now.hall.now result.0
        × HasTurned (known_of seat) (known_of result.0) 0 }
    ensures pass { IsPassOf site.now.jobs.now result.1 × TakesToEnd (seen_of result.1) }
{
    for _ in site.rt.forever() {
        let end = worker(site, seat, pass, reporter);
        seat = end.seat;
        pass = end.pass;
        match end.stop {
            WorkerStop::Ended => return (seat, pass),
            WorkerStop::NoMemory => pause(site.rt),
        }
    }
    unreachable!()
}

/// Waits for a moment.
fn pause<R: Wait>(rt: &R) {
    AtomicU64::new(0).park_timeout(rt, 0, Duration::from_millis(PAUSE));
}
