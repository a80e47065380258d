//! Crashes that wait for a place in the ring.
ghost use Rattle.std.specs.Prelude.{◌≡◌};

use crate::jobs::{Job, Jobs};
use crate::pass::Pass;
use soc_raw::CrashId;
use std::collections::VecDeque;
use std::sync::Wait;

impl Jobs {
    ghost use Rattle.soc_pool.specs.Passes.{IsPassOf, MayPut, PutsOrWaits, empties_of, seen_of};

    /// Has these crashes wait, in order, in place of those that wait.
    pub fn await_room<R: Wait>(&self, rt: &R, crashes: VecDeque<CrashId>) {
        *self.waiting.lock(rt) = crashes;
    }

    /// Puts the job of a crash last. Where the ring is full, the crash waits behind the others, and a later `refill` puts its
    /// job. Where memory is wanting for that, it is forgotten.
    pub fn put_or_wait<R: Wait>(&self, rt: &R, pass: Pass, crash: CrashId) -> Pass
        requires { IsPassOf self.now pass }
        ensures pass { IsPassOf self.now result }
        ensures put { PutsOrWaits crash pass result }
        ensures empties { empties_of result ≡ empties_of pass }
    {
        // Who takes the last job of a ring that was full looks here behind this.
        let mut waiting = self.waiting.lock(rt);
        match self.put(rt, pass, Job::Crash(crash)) {
            Ok(after) => after,
            Err((after, _)) => {
                let _is_kept = waiting.push_back(crash).is_ok();
                after
            }
        }
    }

    /// Puts the job of the first crash that waits, where there is one and the ring has room.
    pub fn refill<R: Wait>(&self, rt: &R, pass: Pass) -> Pass
        requires { IsPassOf self.now pass }
        ensures pass { IsPassOf self.now result }
        ensures put { MayPut (seen_of pass) (seen_of result) }
        ensures empties { empties_of result ≡ empties_of pass }
    {
        let mut waiting = self.waiting.lock(rt);
        let Some(crash) = waiting.front().copied() else {
            return pass;
        };
        match self.put(rt, pass, Job::Crash(crash)) {
            Ok(after) => {
                let _first = waiting.pop_front();
                after
            }
            Err((after, _)) => after,
        }
    }

    /// Forgets the crashes that wait.
    pub fn forget<R: Wait>(&self, rt: &R) {
        self.waiting.lock(rt).clear();
    }
}
