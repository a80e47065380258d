//! Jobs that are put into a ring and taken at once.
ghost use Rattle.std.specs.Prelude.{◌≤◌};
ghost use Rattle.soc_pool.specs.Passes.{IsPassOf};

use crate::fault::Fault;
use crate::numbers::number_up_to;
use soc_pool::{Job, Jobs, Pass};
use std::rt::Clock;
use std::sync::Wait;
use std::time::Instant;

/// The most jobs.
const MOST_JOBS: u64 = 1_000_000_000;

/// Puts so many jobs, and takes each at once.
pub fn run<R: Clock + Print + Eprint + AllocGlobal + Wait>(
    rt: &R,
    words: &[String],
) -> Result<(), Fault> {
    let [count] = words else {
        return Err(Fault::Words);
    };
    let count = number_up_to(count, MOST_JOBS)?;
    let (jobs, mut passes) = Jobs::new(rt.alloc(), 1)?;
    let Some(pass) = passes.pop() else {
        return Err(Fault::Words);
    };
    let start = Instant::now(rt)?;
    let taken = put_and_take(rt, &jobs, pass, count);
    let rate = u128::from(taken) * 1_000_000 / start.elapsed(rt)?.as_micros().max(1);
    println!(rt; "ring: {taken} jobs")?;
    eprintln!(rt; "ring: {rate} jobs/s put and taken")?;
    Ok(())
}

/// How many jobs were taken.
fn put_and_take<R: Wait>(rt: &R, jobs: &Jobs, mut pass: Pass, count: u64) -> u64
    requires { IsPassOf jobs.now pass }
    ensures { result ≤ count }
{
    let mut taken = 0;
    for _number in 0..count {
        let Ok(after) = jobs.put(rt, pass, Job::End) else {
            return taken;
        };
        let (after, job) = jobs.take(rt, after);
        pass = after;
        if job.is_some() {
            taken += 1;
        }
    }
    taken
}
