//! A processor: it takes the jobs of crashes out of a ring, and gives each crash its report.
ghost use Rattle.std.specs.Prelude.{◌≡◌, ◌++◌, IfSome};
ghost use Rattle.soc_hall.specs.Seats.{IsSeatOf, known_of};
ghost use Rattle.soc_pool.specs.Passes.{IsPassOf, seen_of};
ghost use Rattle.soc_service.specs.Works.{PutsCrashes, Worked, crash_jobs, last_job};

use crate::gate::{Gate, Point};
use crate::lists::Lists;
use crate::process::process;
use crate::sharing::SharedDesk;
use crate::site::Site;
use soc_hall::Seat;
use soc_pool::{Job, Pass};
use soc_raw::CrashId;
use soc_schema::Reporter;
use std::sync::Wait;

/// Why a processor stopped.
#[derive(Clone, Copy, Debug, PartialEq, Eq)]
pub enum WorkerStop {
    /// It took an `End`.
    Ended,
    /// An allocation failed.
    NoMemory,
}

/// What a processor leaves.
#[derive(Drop)]
pub struct WorkerEnd<S> {
    pub seat: S,
    pub pass: Pass,
    /// The crashes whose jobs it took, in order. One that was taken twice stands here twice.
    pub taken: Vec<CrashId>,
    /// Those that it gave a report.
    pub made: Vec<CrashId>,
    /// Those that weren't due, or not any longer. A crash that isn't held is one of these.
    pub stale: Vec<CrashId>,
    /// Those that couldn't be read.
    pub missed: Vec<CrashId>,
    pub stop: WorkerStop,
}

// The lists of a processor that stopped.
fn end_of<S>(lists: Lists, seat: S, pass: Pass, stop: WorkerStop) -> WorkerEnd<S>
    ensures given { (result.seat ≡ seat) × (result.pass ≡ pass) × (result.stop ≡ stop) }
    ensures lists { (result.taken ≡ lists.taken) × (result.made ≡ lists.made)
        × (result.stale ≡ lists.stale) × (result.missed ≡ lists.missed) }
{
    let Lists {
        taken,
        made,
        stale,
        missed,
    } = lists;
    WorkerEnd {
        seat,
        pass,
        taken,
        made,
        stale,
        missed,
        stop,
    }
}

/// Makes the reports of the crashes whose jobs it takes, by the desk's own reporter, until it takes an `End`. Before each
/// job it puts that of the first crash that waits for a place. Where the ring is empty it sleeps. Where memory is wanting,
/// it stops.
pub fn worker<T: SharedDesk, R: Reporter, G: Gate, W: Wait>(
    site: &Site<'_, T, G, W>,
    mut seat: Seat<T>,
    mut pass: Pass,
    reporter: &R,
) -> WorkerEnd<Seat<T>>
    requires seat { IsSeatOf site.now.hall.now seat }
    requires pass { IsPassOf site.now.jobs.now pass }
    requires reporter { IfSome (known_of seat).basis
        (λ basis. (T.desk_of basis).row_of ≡ R.row_of reporter.now) }
    ensures seat { IsSeatOf site.now.hall.now result.seat }
    ensures pass { IsPassOf site.now.jobs.now result.pass }
    ensures taken { (seen_of result.pass).takes ≡ (seen_of pass).takes
        ++ (crash_jobs result.taken.items ++ last_job result.stop) }
    ensures puts { PutsCrashes (seen_of pass) (seen_of result.pass) }
    ensures worked { Worked T.Logged T.command_of
        (known_of seat) result.taken.items result.made.items result.stale.items result.missed.items
        result.stop (known_of result.seat) }
{
    let mut lists = Lists::new(site.alloc);
    for _ in site.rt.forever() {
        if lists.taken.reserve(1).is_err() {
            return end_of(lists, seat, pass, WorkerStop::NoMemory);
        }
        pass = site.jobs.refill(site.rt, pass);
        let (after, job) = site.jobs.next(site.rt, pass);
        pass = after;
        let id = match job {
            Job::Crash(id) => id,
            Job::End => return end_of(lists, seat, pass, WorkerStop::Ended),
        };
        lists.taken.push_reserved(id);
        site.gate.at(Point::Taken);
        let (after, outcome) = process(
            site.rt, site.alloc, site.hall, seat, reporter, site.gate, id,
        );
        seat = after;
        let outcome = match outcome {
            Some(outcome) => outcome,
            None => return end_of(lists, seat, pass, WorkerStop::NoMemory),
        };
        match lists.note(id, outcome) {
            Ok(()) => {}
            Err(_) => return end_of(lists, seat, pass, WorkerStop::NoMemory),
        }
    }
    unreachable!()
}
