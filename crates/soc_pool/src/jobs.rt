//! The ring.
ghost use Rattle.std.specs.Prelude.{◌≡◌, ◌<◌, ◌≤◌, [], length, map, All, vec_capacity, IfOk, IfErr, IfSome, IfNone, MatchOption, MatchResult};
ghost use Rattle.crossbeam_queue.specs.Passes.{ruled_capacity};
ghost use Rattle.soc_pool.specs.declared.jobs.TheConstants.{PLACES};
ghost use Rattle.soc_pool.specs.declared.rule.Role.TheVariants.{Makes};

use crate::pass::{Pass, Passes, RingEnd};
use crate::rule::{Another, Close, Gather, MakeRoom, OneRing, Put, Take, View};
use crossbeam_queue::RuledArrayQueue;
use soc_base::NoMemory;
use soc_raw::CrashId;
use std::alloc::Global;
use std::collections::VecDeque;
use std::sync::atomic::AtomicU64;
use std::sync::atomic::Ordering::SeqCst;
use std::sync::{Mutex, Wait};

/// How many jobs a ring holds.
pub const PLACES: usize = 1024;

/// What a processor is to do: make the report of a crash, or end.
#[derive(Clone, Copy, Debug, PartialEq, Eq)]
pub enum Job {
    Crash(CrashId),
    End,
}

/// A ring of jobs, and behind it crashes that wait for a place.
#[derive(Drop)]
pub struct Jobs {
    ring: RuledArrayQueue<Job, View, OneRing>,
    // How many jobs were put, modulo 2^64. Who finds the ring empty sleeps until it changes.
    puts: AtomicU64,
    // The crashes that wait, in order.
    pub(crate) waiting: Mutex<VecDeque<CrashId>>,
    ghost places: { ruled_capacity ring ≡ PLACES },
}

impl Jobs {
    ghost use Rattle.crossbeam_queue.specs.Passes as kit;
    ghost use Rattle.soc_pool.specs.Ring.{Puts, PutsOver, Takes};
    ghost use Rattle.soc_pool.specs.Passes.{seen_of, fulls_of, empties_of, passes_in, room_of, all_of, seen_in, numbers_below, once_more, IsPassOf, IsRollOf, IsNew};
    ghost use Rattle.soc_pool.specs.inner.Rule.{maker};

    /// A ring that holds no job and for which no crash waits, and its passes.
    pub fn new(alloc: Global, passes: u32) -> Result<(Jobs, Passes), NoMemory>
        requires { (0 < passes) × (passes ≤ 64) }
        ensures count { IfOk result (λ made. (length (passes_in made.1) ≡ passes)
            × (passes ≤ room_of made.1)) }
        ensures each { IfOk result (λ made.
            All (λ pass. IsPassOf made.0 pass × IsNew pass) (passes_in made.1)) }
        ensures roll { IfOk result (λ made. IsRollOf made.0 made.1
            × (all_of made.1 ≡ passes)) }
        ensures numbers { IfOk result (λ made.
            map (λ pass. (seen_of pass).number) (passes_in made.1) ≡ numbers_below passes) }
    {
        let list = Vec::with_capacity(alloc, passes as usize)?;
        let (ring, roll) = RuledArrayQueue::ruled(alloc, PLACES)?;
        let jobs = Jobs {
            ring,
            puts: AtomicU64::new(0),
            waiting: Mutex::new(VecDeque::new(alloc)),
        };
        let passes = jobs.fill(list, roll, passes);
        Ok((jobs, passes))
    }

    // As many passes, the first with the number 0.
    fn fill(
        &self,
        mut list: Vec<Pass>,
        mut roll: crossbeam_queue::Pass<Job, View>,
        passes: u32,
    ) -> Passes
        requires list { (list.items ≡ []) × (passes ≤ vec_capacity list) }
        requires roll { kit.IsPassOf self.now.ring roll × (kit.view roll ≡ maker) }
        ensures count { (length (passes_in result) ≡ passes) × (passes ≤ room_of result) }
        ensures each { All (λ pass. IsPassOf self.now pass × IsNew pass) (passes_in result) }
        ensures roll { IsRollOf self.now result × (all_of result ≡ passes) }
        ensures numbers { map (λ pass. (seen_of pass).number) (passes_in result)
            ≡ numbers_below passes }
    {
        for _number in 0..passes {
            let ring = self.ring.another::<Another>(&mut roll);
            list.push_reserved(Pass {
                ring,
                fulls: 0,
                empties: 0,
            });
        }
        Passes { list, roll }
    }

    /// Puts the job last. The error gives it back where the ring was full.
    pub fn put<R: Wait>(&self, rt: &R, mut pass: Pass, job: Job) -> Result<Pass, (Pass, Job)>
        requires { IsPassOf self.now pass }
        ensures pass { MatchResult result (λ after. IsPassOf self.now after)
            (λ back. IsPassOf self.now back.0) }
        ensures put { IfOk result (λ after. Puts (seen_of pass) job (seen_of after)
            × (fulls_of after ≡ fulls_of pass)) }
        ensures refused { IfErr result (λ back. (back.1 ≡ job) × (seen_of back.0 ≡ seen_of pass)
            × (fulls_of back.0 ≡ once_more (fulls_of pass))) }
        ensures empties { MatchResult result (λ after. empties_of after ≡ empties_of pass)
            (λ back. empties_of back.0 ≡ empties_of pass) }
    {
        match self.ring.push_as::<Put, R>(rt, &mut pass.ring, job) {
            Ok(()) => {
                self.puts.fetch_add(1, SeqCst);
                self.puts.wake_one();
                Ok(pass)
            }
            Err(job) => {
                pass.fulls = pass.fulls.saturating_add(1);
                Err((pass, job))
            }
        }
    }

    /// Puts the job last. Where the ring is full, its next job is taken out for that.
    pub fn put_over<R: Wait>(&self, rt: &R, mut pass: Pass, job: Job) -> (Pass, Option<Job>)
        requires { IsPassOf self.now pass }
        ensures pass { IsPassOf self.now result.0 }
        ensures put { MatchOption result.1 (Puts (seen_of pass) job (seen_of result.0))
            (λ out. PutsOver (seen_of pass) out job (seen_of result.0)) }
        ensures counts { (fulls_of result.0 ≡ fulls_of pass)
            × (empties_of result.0 ≡ empties_of pass) }
    {
        let out = self
            .ring
            .force_push_as::<Put, MakeRoom, R>(rt, &mut pass.ring, job);
        self.puts.fetch_add(1, SeqCst);
        self.puts.wake_one();
        (pass, out)
    }

    /// Takes the next job. None where the ring was empty.
    pub fn take<R: Wait>(&self, rt: &R, mut pass: Pass) -> (Pass, Option<Job>)
        requires { IsPassOf self.now pass }
        ensures pass { IsPassOf self.now result.0 }
        ensures taken { IfSome result.1
            (λ job. Takes (seen_of pass) job (seen_of result.0)
            × (empties_of result.0 ≡ empties_of pass)) }
        ensures empty { IfNone result.1
            ((seen_of result.0 ≡ seen_of pass)
            × (empties_of result.0 ≡ once_more (empties_of pass))) }
        ensures fulls { fulls_of result.0 ≡ fulls_of pass }
    {
        let job = self.ring.pop_as::<Take, R>(rt, &mut pass.ring);
        if job.is_none() {
            pass.empties = pass.empties.saturating_add(1);
        }
        (pass, job)
    }

    /// Takes the next job. Where the ring is empty it sleeps until one is put.
    pub fn next<R: Wait>(&self, rt: &R, mut pass: Pass) -> (Pass, Job)
        requires { IsPassOf self.now pass }
        ensures pass { IsPassOf self.now result.0 }
        ensures taken { Takes (seen_of pass) result.1 (seen_of result.0) }
        ensures fulls { fulls_of result.0 ≡ fulls_of pass }
    {
        for _ in rt.forever() {
            // A put behind this look changes the count before it wakes, so none falls between the take and the sleep.
            let puts = self.puts.load(SeqCst);
            let (after, job) = self.take(rt, pass);
            pass = after;
            if let Some(job) = job {
                return (pass, job);
            }
            self.puts.park(rt, (puts & 0xffff_ffff) as u32);
        }
        unreachable!()
    }

    // The roll takes these passes back.
    fn gather(
        &self,
        mut roll: crossbeam_queue::Pass<Job, View>,
        list: Vec<Pass>,
    ) -> crossbeam_queue::Pass<Job, View>
        requires roll { kit.IsPassOf self.now.ring roll × ((kit.view roll).role ≡ Makes)
            × ((kit.view roll).gone ≡ []) }
        requires list { All (λ pass. IsPassOf self.now pass) list.items }
        ensures roll { kit.IsPassOf self.now.ring result × ((kit.view result).role ≡ Makes)
            × ((kit.view result).seen ≡ (kit.view roll).seen) }
        ensures gone { (kit.view result).gone ≡ map (λ pass. seen_of pass) list.items }
    {
        for pass in list {
            let Pass { ring, .. } = pass;
            self.ring.absorb::<Gather>(&mut roll, ring);
        }
        roll
    }

    /// Ends the ring. The passes are all of the ring's.
    pub fn close(self, passes: Passes) -> RingEnd
        requires roll { IsRollOf self passes }
        requires each { All (λ pass. IsPassOf self pass) (passes_in passes) }
        requires all { length (passes_in passes) ≡ all_of passes }
        ensures { seen_in result ≡ map (λ pass. seen_of pass) (passes_in passes) }
    {
        let Passes { list, roll } = passes;
        let mut roll = self.gather(roll, list);
        self.ring.learn_as::<Close>(&mut roll);
        RingEnd { roll }
    }
}
