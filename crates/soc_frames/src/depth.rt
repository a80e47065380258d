//! How deep in brackets a place of a C++ name stands.
ghost use Rattle.std.specs.Prelude.{◌≡◌, ◌+◌, ◌^◌, ◌<◌, ◌≤◌};
ghost use Rattle.soc_frames.specs.inner.Counts.{after_place, is_none};

use crate::walk::Place;

/// How many brackets stand open: `<` outside of parentheses, and `(`. A `<` in parentheses tells nothing: the `)`
/// closes it too.
#[derive(Clone, Copy)]
pub struct Depth {
    pub angles: usize,
    pub rounds: usize,
}

impl Depth {
    pub const NONE: Depth = Depth {
        angles: 0,
        rounds: 0,
    };

    /// Whether nothing stands open.
    pub fn is_none(self) -> bool
        ensures { result ≡ is_none self }
    {
        self.angles == 0 && self.rounds == 0
    }

    /// What stands open behind a place.
    pub fn after(self, place: Place) -> Depth
        requires { self.angles + self.rounds + 1 < 2 ^ 64 }
        ensures counts { result ≡ after_place self place }
        ensures bound { result.angles + result.rounds ≤ self.angles + self.rounds + 1 }
    {
        if place.is_plain {
            return self;
        }
        let in_rounds = self.rounds > 0;
        match place.byte {
            b'<' if !in_rounds => Depth {
                angles: self.angles + 1,
                rounds: self.rounds,
            },
            b'(' => Depth {
                angles: self.angles,
                rounds: self.rounds + 1,
            },
            b'>' if !in_rounds => Depth {
                angles: self.angles.saturating_sub(1),
                rounds: self.rounds,
            },
            b')' => Depth {
                angles: self.angles,
                rounds: self.rounds.saturating_sub(1),
            },
            _ => self,
        }
    }
}
