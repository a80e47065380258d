//! The clock and random draws. They don't fail.
ghost use Rattle.soc_raw.specs.Day.{IsMoment};
ghost use Rattle.soc_edge.specs.Ahead.{ClockTold, DrawsTold, HandsMoment, HandsThrottle, HandsId};

/// What the moment is.
pub trait Clock {
    /// The moments that it gives from here on, where it tells them.
    ghost told: { Self → ClockTold };

    /// The moment in seconds since 1970, from 946,684,800 to 4,102,444,799 (the years 2000 to 2099).
    fn now(&mut self) -> u64
        ensures range { IsMoment result }
        ensures gives { HandsMoment (told self.old) (told self.new) result };
}

/// Random draws.
pub trait Draws {
    /// What either call gives from here on, where it is told.
    ghost told: { Self → DrawsTold };

    /// A number for the throttle rules.
    fn throttle(&mut self) -> u64
        ensures gives { HandsThrottle (told self.old) (told self.new) result };

    /// Sixteen bytes for a crash id.
    fn id(&mut self) -> [u8; 16]
        ensures gives { HandsId (told self.old) (told self.new) result };
}

/// A clock that is lent tells the same moments.
impl<C: Clock> Clock for &mut C {
    ghost told = { λ c. C.told c.now };

    fn now(&mut self) -> u64 {
        (**self).now()
    }
}

/// Draws that are lent tell the same.
impl<W: Draws> Draws for &mut W {
    ghost told = { λ w. W.told w.now };

    fn throttle(&mut self) -> u64 {
        (**self).throttle()
    }

    fn id(&mut self) -> [u8; 16] {
        (**self).id()
    }
}
