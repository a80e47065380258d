ghost use Rattle.std.specs.Prelude.{◌≡◌, ℕ, ◌+◌, ◌*◌, ◌<◌, ◌≤◌, ◌^◌, [], length, All, IfOk};
ghost use Rattle.soc_pool.specs.Passes.{passes_in, IsPassOf};

use super::*;
use soc_base::NoMemory;
use soc_raw::{CrashId, Digit, FIRST_MOMENT};
use std::alloc::Global;
use std::ops::Range;
use std::sync::Wait;
use std::test::*;
use std::thread;
use std::thread::Threads;

// The crash whose id begins with this number.
fn crash(number: u32) -> CrashId {
    let mut draw = [0u8; 16];
    draw[0..4].copy_from_slice(&number.to_be_bytes());
    CrashId::make(draw, Digit::Accepted, FIRST_MOMENT)
}

fn numbered(number: u32) -> Job {
    Job::Crash(crash(number))
}

fn number_of(job: &Job) -> Option<u32> {
    let Job::Crash(id) = job else {
        return None;
    };
    let front = id.as_str().get(..8)?;
    u32::from_str_radix(front, 16).ok()
}

// Puts the first jobs, up to the one that is refused.
fn put_all<R: Wait>(rt: &R, jobs: &Jobs, mut pass: Pass, count: u32) -> (Pass, Option<(u32, Job)>)
    requires { IsPassOf jobs.now pass }
    ensures { IsPassOf jobs.now result.0 }
{
    for number in 0..count {
        match jobs.put(rt, pass, numbered(number)) {
            Ok(after) => pass = after,
            Err((back, job)) => return (back, Some((number, job))),
        }
    }
    (pass, None)
}

// Takes as many jobs: whether they are those of these numbers, in order.
fn take_all<R: Wait>(rt: &R, jobs: &Jobs, mut pass: Pass, numbers: Range<u32>) -> (Pass, bool)
    requires { IsPassOf jobs.now pass }
    ensures { IsPassOf jobs.now result.0 }
{
    let mut in_order = true;
    for number in numbers {
        let (after, job) = jobs.take(rt, pass);
        pass = after;
        in_order = in_order && job == Some(numbered(number));
    }
    (pass, in_order)
}

#[test]
fn a_ring_holds_its_places(rt: HostRuntime) -> Result<(), Fail> {
    let (jobs, mut passes) = Jobs::new(rt.alloc(), 1)?;
    let pass = passes.pop().expect(&rt, "one pass");
    assert!(rt; passes.pop().is_none());
    let (pass, refused) = put_all(&rt, &jobs, pass, 2000);
    assert_eq!(rt; refused, Some((1024, numbered(1024))));
    assert_eq!(rt; (pass.fulls(), pass.empties()), (1, 0));
    let (pass, in_order) = take_all(&rt, &jobs, pass, 0..1024);
    assert!(rt; in_order);
    let (pass, job) = jobs.take(&rt, pass);
    assert_eq!(rt; job, None);
    assert_eq!(rt; (pass.fulls(), pass.empties()), (1, 1));
    let pass = jobs.put(&rt, pass, Job::End).ok().expect(&rt, "room");
    let (_, job) = jobs.take(&rt, pass);
    assert_eq!(rt; job, Some(Job::End));
    Ok(())
}

#[test]
fn a_job_is_put_over_the_next_of_a_full_ring(rt: HostRuntime) -> Result<(), Fail> {
    let (jobs, mut passes) = Jobs::new(rt.alloc(), 1)?;
    let pass = passes.pop().expect(&rt, "one pass");
    let (pass, _) = put_all(&rt, &jobs, pass, 1023);
    let (pass, out) = jobs.put_over(&rt, pass, Job::End);
    assert_eq!(rt; out, None);
    let (pass, out) = jobs.put_over(&rt, pass, numbered(1024));
    assert_eq!(rt; out, Some(numbered(0)));
    let (pass, in_order) = take_all(&rt, &jobs, pass, 1..1023);
    assert!(rt; in_order);
    let (pass, job) = jobs.take(&rt, pass);
    assert_eq!(rt; job, Some(Job::End));
    let (_, job) = jobs.take(&rt, pass);
    assert_eq!(rt; job, Some(numbered(1024)));
    Ok(())
}

#[test]
fn crashes_wait_for_a_place(rt: HostRuntime) -> Result<(), Fail> {
    let (jobs, mut passes) = Jobs::new(rt.alloc(), 1)?;
    let pass = passes.pop().expect(&rt, "one pass");
    let (pass, _) = put_all(&rt, &jobs, pass, 1024);
    let pass = jobs.put_or_wait(&rt, pass, crash(1024));
    let pass = jobs.put_or_wait(&rt, pass, crash(1025));
    assert_eq!(rt; pass.fulls(), 2);
    let (pass, in_order) = take_all(&rt, &jobs, pass, 0..1);
    assert!(rt; in_order);
    let pass = jobs.refill(&rt, pass);
    let pass = jobs.refill(&rt, pass);
    let (pass, job) = jobs.take(&rt, pass);
    assert_eq!(rt; job, Some(numbered(1)));
    jobs.forget(&rt);
    let pass = jobs.refill(&rt, pass);
    let (pass, in_order) = take_all(&rt, &jobs, pass, 2..1025);
    assert!(rt; in_order);
    let (_, job) = jobs.take(&rt, pass);
    assert_eq!(rt; job, None);
    Ok(())
}

#[test]
fn a_ring_ends_with_all_passes(rt: HostRuntime) -> Result<(), Fail> {
    let (jobs, passes) = Jobs::new(rt.alloc(), 3)?;
    let _end = jobs.close(passes);
    Ok(())
}

// A thread's pass, the first number that it puts, and the numbers that it took.
#[derive(Drop)]
struct Worker<P> {
    pass: P,
    from: u32,
    taken: Vec<u32>,
}

// Takes a job, if there is one, and notes its number.
fn take_one<R: Wait>(rt: &R, jobs: &Jobs, pass: Pass, taken: &mut Vec<u32>) -> Pass
    requires { IsPassOf jobs.now pass }
    ensures { IsPassOf jobs.now result }
{
    let (pass, job) = jobs.take(rt, pass);
    if let Some(number) = job.as_ref().and_then(number_of) {
        let _ = taken.push(number);
    }
    pass
}

// Puts a job, and takes others while the ring is full.
fn put_one<R: Wait>(rt: &R, jobs: &Jobs, mut pass: Pass, mut job: Job, taken: &mut Vec<u32>) -> Pass
    requires { IsPassOf jobs.now pass }
    ensures { IsPassOf jobs.now result }
{
    for _ in rt.forever() {
        match jobs.put(rt, pass, job) {
            Ok(after) => return after,
            Err((back, refused)) => {
                pass = take_one(rt, jobs, back, taken);
                job = refused;
            }
        }
    }
    unreachable!()
}

// Puts as many jobs and takes about as many.
fn work<R: Wait>(rt: &R, jobs: &Jobs, worker: Worker<Pass>, count: u32) -> Worker<Pass>
    requires pass { IsPassOf jobs.now worker.pass }
    requires few { worker.from + count < 2 ^ 32 }
    ensures { IsPassOf jobs.now result.pass }
{
    let Worker {
        mut pass,
        from,
        mut taken,
    } = worker;
    for i in 0..count {
        pass = put_one(rt, jobs, pass, numbered(from + i), &mut taken);
        if i % 3 > 0 {
            pass = take_one(rt, jobs, pass, &mut taken);
        }
    }
    Worker { pass, from, taken }
}

// As many workers as there are passes, each with numbers of its own.
fn workers_of(
    alloc: Global,
    jobs: &Jobs,
    mut passes: Passes,
    count: u32,
) -> Result<Vec<Worker<Pass>>, NoMemory>
    requires passes { All (λ pass. IsPassOf jobs.now pass) (passes_in passes) }
    requires few { (length (passes_in passes) ≤ 64) × (count ≤ 1000000) }
    ensures { IfOk result (λ workers.
        All (λ worker. IsPassOf jobs.now worker.pass × (worker.from ≤ 64000000)) workers.items) }
{
    let mut workers = Vec::new(alloc);
    while let Some(pass) = passes.pop() {
        let from = workers.len() as u32 * count;
        workers.push(Worker {
            pass,
            from,
            taken: Vec::new(alloc),
        })?;
    }
    Ok(workers)
}

// What so many threads took that put as many jobs each, and at the end what was left in the ring.
fn run<R: Threads + Wait + Sync>(
    rt: &R,
    alloc: Global,
    threads: u32,
    count: u32,
) -> Result<Vec<Vec<u32>>, NoMemory>
    requires threads { (0 < threads) × (threads ≤ 63) }
    requires count { count ≤ 1000000 }
{
    let (ring, mut passes) = Jobs::new(alloc, threads + 1)?;
    let jobs = &ring;
    let mut lists = Vec::new(alloc);
    let Some(mut last) = passes.pop() else {
        return Ok(lists);
    };
    let workers = workers_of(alloc, jobs, passes, count)?;
    let workers = thread::map_vec(
        rt,
        workers,
        &|worker: Worker<Pass>| -> Worker<Pass>
            requires { IsPassOf jobs.now worker.pass × (worker.from ≤ 64000000)
                × (count ≤ 1000000) }
            ensures { IsPassOf jobs.entry.now result.pass }
        { work(rt, jobs, worker, count) },
    )?;
    for worker in workers {
        let Worker {
            pass: _,
            from: _,
            taken,
        } = worker;
        lists.push(taken)?;
    }
    let mut rest = Vec::new(alloc);
    for _ in 0..PLACES {
        last = take_one(rt, jobs, last, &mut rest);
    }
    lists.push(rest)?;
    Ok(lists)
}

#[test]
fn each_job_is_taken_once(rt: HostRuntime) -> Result<(), Fail> {
    let lists = run(&rt, rt.alloc(), 4, 250_000)?;
    let mut times = Vec::from_elem(rt.alloc(), 0u8, 1_000_000)?;
    for list in &lists {
        for number in list {
            if let Some(count) = times.get_mut(*number as usize) {
                *count = count.saturating_add(1);
            }
        }
    }
    assert!(rt; times.iter().all(|count| *count == 1));
    Ok(())
}
