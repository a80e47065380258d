//! The jobs that are put before the threads start, and when they are to end.
ghost use Rattle.std.specs.Prelude.{◌≡◌, ◌-◌, ◌<◌, ◌^◌, ◌++◌, drop, take, IfOk};
ghost use Rattle.soc_ledger.specs.Due.{due_ids};
ghost use Rattle.soc_pool.specs.Passes.{IsPassOf, seen_of};
ghost use Rattle.soc_pool.specs.declared.jobs.TheConstants.{PLACES};
ghost use Rattle.soc_service.specs.Changes.{events_in};
ghost use Rattle.soc_service.specs.Works.{crash_jobs};
ghost use Rattle.soc_crew.specs.Jobs.{PutsEnds, left_after};

use soc_base::NoMemory;
use soc_pool::{Job, Jobs, PLACES, Pass};
use soc_raw::CrashId;
use soc_service::SharedDesk;
use std::alloc::Global;
use std::collections::VecDeque;
use std::sync::Wait;

/// Puts jobs of crashes that are due, the first ones in order, as many as a ring has places. The others wait for a place, in
/// order.
pub(crate) fn put_due<T: SharedDesk, R: Wait>(
    rt: &R,
    alloc: Global,
    jobs: &Jobs,
    mut pass: Pass,
    desk: &T,
) -> Result<Pass, NoMemory>
    requires { IsPassOf jobs.now pass }
    ensures pass { IfOk result (λ after. IsPassOf jobs.now after) }
    ensures puts { IfOk result (λ after. (seen_of after).puts
        ≡ (seen_of pass).puts ++ crash_jobs (take PLACES (due_ids (events_in (T.log_of desk.now))))) }
    ensures takes { IfOk result (λ after. (seen_of after).takes ≡ (seen_of pass).takes) }
{
    for place in 0..PLACES as u32 {
        let Some(id) = desk.due_at(place) else {
            return Ok(pass);
        };
        match jobs.put(rt, pass, Job::Crash(id)) {
            Ok(after) => pass = after,
            // A new ring has room for all of them.
            Err(_) => return Err(NoMemory),
        }
    }
    jobs.await_room(rt, due_from(alloc, desk, PLACES as u32)?);
    Ok(pass)
}

/// The crashes that are due, from this place of their order on.
fn due_from<T: SharedDesk>(
    alloc: Global,
    desk: &T,
    from: u32,
) -> Result<VecDeque<CrashId>, NoMemory>
    ensures { IfOk result (λ ids.
        ids.items ≡ drop from (take (2 ^ 32 - 1) (due_ids (events_in (T.log_of desk.now))))) }
{
    let mut ids = VecDeque::new(alloc);
    for place in from..u32::MAX {
        let Some(id) = desk.due_at(place) else {
            return Ok(ids);
        };
        ids.push_back(id)?;
    }
    Ok(ids)
}

/// Puts so many `End`s, and one more for each that it takes out of a full ring. A crash whose job is taken out so is left to
/// the last sweep.
pub(crate) fn put_ends<R: Wait>(rt: &R, jobs: &Jobs, mut pass: Pass, ends: usize) -> Pass
    requires { IsPassOf jobs.now pass }
    ensures pass { IsPassOf jobs.now result }
    ensures ends { PutsEnds ends 0 (seen_of pass) (seen_of result) }
{
    let mut left = ends;
    for _ in rt.forever() {
        if left == 0 {
            return pass;
        }
        let (after, out) = jobs.put_over(rt, pass, Job::End);
        pass = after;
        left = left_after(left, out);
    }
    unreachable!()
}

/// How many `End`s are left to put where one was put, and this job was taken out for it.
fn left_after(left: usize, out: Option<Job>) -> usize
    requires { 0 < left }
    ensures { result ≡ left_after left out }
{
    match out {
        Some(Job::End) => left,
        _ => left - 1,
    }
}
