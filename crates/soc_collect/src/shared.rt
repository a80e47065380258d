//! What collectors take turns at: a door, a clock and draws.
use crate::door::{Door, Naming};
use soc_edge::{Clock, Draws};
use soc_listen::Listener;
use std::sync::ledger::Ledger;
use std::sync::{Mutex, Wait};

/// What collectors share, each under a lock of its own.
#[derive(Drop)]
pub struct Shared<L: Listener, N: Ledger, M: Ledger, J: Naming, C, W> {
    pub door: Mutex<Door<L, N, M, J>>,
    pub clock: Mutex<C>,
    pub draws: Mutex<W>,
}

/// A clock under a lock. What it gives next isn't told, since another thread may ask it first.
#[derive(Drop)]
pub struct SharedClock<'m, C, W> {
    rt: &'m W,
    clock: &'m Mutex<C>,
}

impl<'m, C, W> SharedClock<'m, C, W> {
    /// The clock under this lock.
    pub fn new(rt: &'m W, clock: &'m Mutex<C>) -> SharedClock<'m, C, W> {
        SharedClock { rt, clock }
    }
}

impl<C: Clock, W: Wait> Clock for SharedClock<'_, C, W> {
    ghost use Rattle.std.specs.Prelude.{None};

    ghost told = { λ _. record { moments = λ _. None } };

    fn now(&mut self) -> u64 {
        self.clock.lock(self.rt).now()
    }
}

/// Draws under a lock. What they give next isn't told, since another thread may draw first.
#[derive(Drop)]
pub struct SharedDraws<'m, S, W> {
    rt: &'m W,
    draws: &'m Mutex<S>,
}

impl<'m, S, W> SharedDraws<'m, S, W> {
    /// The draws under this lock.
    pub fn new(rt: &'m W, draws: &'m Mutex<S>) -> SharedDraws<'m, S, W> {
        SharedDraws { rt, draws }
    }
}

impl<S: Draws, W: Wait> Draws for SharedDraws<'_, S, W> {
    ghost use Rattle.std.specs.Prelude.{None};

    ghost told = { λ _. record { throttles = λ _. None; ids = λ _. None } };

    fn throttle(&mut self) -> u64 {
        self.draws.lock(self.rt).throttle()
    }

    fn id(&mut self) -> [u8; 16] {
        self.draws.lock(self.rt).id()
    }
}
