//! The system's clock.
ghost use Rattle.std.specs.Prelude.{◌≡◌, max, min};
ghost use Rattle.soc_raw.specs.Day.{IsMoment};

use soc_edge::Clock;
use soc_raw::{FIRST_MOMENT, LAST_MOMENT};
use std::time::{self, SystemTime};

/// The system's clock, held between the years 2000 and 2099. Where it can't be read, it shows the first moment.
#[derive(Drop)]
pub struct SystemClock<'a, R> {
    rt: &'a R,
}

impl<'a, R: time::Clock> SystemClock<'a, R> {
    /// The clock of a runtime.
    pub fn new(rt: &'a R) -> Self {
        SystemClock { rt }
    }
}

impl<'a, R: time::Clock> Clock for SystemClock<'a, R> {
    ghost use Rattle.std.specs.Prelude.{None};

    ghost told = { λ _. record { moments = λ _. None } };

    fn now(&mut self) -> u64 {
        held(seconds(self.rt))
    }
}

/// Whether the clock can be read.
pub fn can_be_read<R: time::Clock>(rt: &R) -> bool {
    SystemTime::now(rt).is_ok()
}

/// Seconds since 1970, or none where the clock can't be read.
fn seconds<R: time::Clock>(rt: &R) -> u64 {
    let Ok(now) = SystemTime::now(rt) else {
        return 0;
    };
    match now.duration_since(SystemTime::UNIX_EPOCH) {
        Ok(since) => since.as_secs(),
        Err(_) => 0,
    }
}

/// The nearest moment of the years 2000 to 2099.
fn held(seconds: u64) -> u64
    ensures range { IsMoment result }
    ensures nearest { result ≡ max 946_684_800 (min seconds 4_102_444_799) }
{
    seconds.clamp(FIRST_MOMENT, LAST_MOMENT)
}
