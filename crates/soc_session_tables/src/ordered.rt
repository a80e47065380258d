//! A clock and draws that note when they are asked.
use soc_edge::{Clock, Draws};
use std::cell::Cell;

/// The number of the next call of either.
fn next(calls: &Cell<u64>) -> u64 {
    let call = calls.get();
    calls.set(call.saturating_add(1));
    call
}

#[derive(Drop)]
pub(crate) struct OrderedClock<'a> {
    pub(crate) calls: &'a Cell<u64>,
    /// The number of the last call.
    pub(crate) asked: Option<u64>,
}

impl<'a> Clock for OrderedClock<'a> {
    ghost use Rattle.std.specs.Prelude.{None};

    ghost told = { λ clock. record { moments = λ k. None } };

    fn now(&mut self) -> u64 {
        self.asked = Some(next(self.calls));
        1_474_156_800
    }
}

#[derive(Drop)]
pub(crate) struct OrderedDraws<'a> {
    pub(crate) calls: &'a Cell<u64>,
    /// The numbers of the last calls.
    pub(crate) throttle: Option<u64>,
    pub(crate) id: Option<u64>,
}

impl<'a> Draws for OrderedDraws<'a> {
    ghost use Rattle.std.specs.Prelude.{None};

    ghost told = { λ draws. record { throttles = λ k. None; ids = λ k. None } };

    fn throttle(&mut self) -> u64 {
        self.throttle = Some(next(self.calls));
        0
    }

    fn id(&mut self) -> [u8; 16] {
        self.id = Some(next(self.calls));
        [0; 16]
    }
}
