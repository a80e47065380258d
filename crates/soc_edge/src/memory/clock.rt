//! A clock in memory.
ghost use Rattle.std.specs.Prelude.{◌≡◌, ◌<◌, length};
ghost use Rattle.std.specs.List.{All};
ghost use Rattle.soc_edge.specs.Memory.{clock_told};
ghost use Rattle.soc_raw.specs.Day.{IsMoment};

use super::lists::Numbers;
use crate::Clock;
use std::marker::Model;

/// Hands out its moments in order, and then the last one again and again. Contracts see those that are still to come.
#[derive(Drop)]
pub struct MemClock {
    moments: Numbers,
    at: usize,
}

impl Model for MemClock {
    ghost use Rattle.std.specs.Prelude.{List, ℕ, ◌<◌, length, drop};
    ghost use Rattle.std.specs.List.{All};
    ghost use Rattle.soc_raw.specs.Day.{IsMoment};

    ghost Value = { List ℕ };

    ghost view = { λ c. drop c.at c.moments };

    ghost invariant = { λ c. (c.at < length c.moments) × All IsMoment c.moments };
}

impl MemClock {
    /// A clock of these moments.
    pub fn new(moments: Numbers) -> MemClock
        requires some { 0 < length moments }
        requires in_range { All IsMoment moments }
        ensures { result ≡ moments }
    {
        MemClock { moments, at: 0 }
    }
}

impl Clock for MemClock {
    ghost told = { clock_told };

    fn now(&mut self) -> u64 {
        let moments = self.moments.as_slice();
        let moment = moments[self.at];
        if self.at + 1 < moments.len() {
            self.at += 1;
        }
        moment
    }
}
