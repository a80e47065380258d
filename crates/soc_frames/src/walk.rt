//! A walk over the bytes of a name.
ghost use Rattle.std.specs.Prelude.{◌≡◌, ◌+◌, ◌^◌, ◌<◌, ◌≤◌, ◌∷◌, [], IsTrue, MatchOption, Option, None, length, nat_lt, take, drop, if◌then◌else◌};
ghost use Rattle.soc_frames.specs.Depth.{open_after, places_of, plain_length};
ghost use Rattle.soc_frames.specs.inner.Walks.{opens, opens_angle, is_space, rest_of, IsAtEnd, Passes, PassesGroup, PassesOuter};

use crate::depth::Depth;
use crate::plain::plain_len;
use soc_text::{after, before};

/// A byte of a name. It is plain where it is part of a text whose brackets don't count.
#[derive(Clone, Copy, Debug)]
pub struct Place {
    pub byte: u8,
    pub is_plain: bool,
}

impl Place {
    /// Whether it opens a group of `<` or `(`.
    pub fn opens(self) -> bool
        ensures { result ≡ opens self }
    {
        !self.is_plain && (self.byte == b'<' || self.byte == b'(')
    }

    /// Whether it opens a group of `<`.
    pub fn opens_angle(self) -> bool
        ensures { result ≡ opens_angle self }
    {
        !self.is_plain && self.byte == b'<'
    }

    /// Whether it is a space that may part words.
    pub fn is_space(self) -> bool
        ensures { result ≡ is_space self }
    {
        !self.is_plain && self.byte == b' '
    }
}

/// A walk over the bytes of a name.
#[derive(Debug, Drop)]
pub struct Walk<'a> {
    pub text: &'a [u8],
    /// Where the next byte stands.
    pub place: usize,
    /// How many bytes are left of a plain text that began before.
    pub plain: usize,
}

impl<'a> Walk<'a> {
    /// A walk from the front on.
    pub fn over(text: &'a [u8]) -> Walk<'a>
        ensures rest { rest_of result ≡ places_of text.now }
        ensures text { result.text.now ≡ text.now }
        ensures place { result.place ≡ 0 }
    {
        Walk {
            text,
            place: 0,
            plain: 0,
        }
    }

    /// How many bytes are left of a plain text, the next one included.
    fn plain_left(&self) -> usize
        ensures { result ≡ (if nat_lt 0 self.now.plain then self.now.plain
            else plain_length (take self.now.place self.now.text.now) (drop self.now.place self.now.text.now)) }
    {
        if self.plain > 0 {
            return self.plain;
        }
        plain_len(before(self.text, self.place), after(self.text, self.place))
    }

    /// The next place.
    pub fn step(&mut self) -> Option<Place>
        ensures turn { MatchOption result (IsAtEnd self.old self.new)
            (λ place. Passes place self.old self.new) }
        ensures bound { self.new.place < 2 ^ 64 }
    {
        let byte = *self.text.get(self.place)?;
        let plain = self.plain_left();
        self.plain = plain.saturating_sub(1);
        self.place += 1;
        Some(Place {
            byte,
            is_plain: plain > 0,
        })
    }

    /// Goes on behind the group that was opened.
    fn pass_group(&mut self, opener: Place)
        requires passed { 0 < self.old.place }
        requires within { self.old.place ≤ length self.old.text.now }
        requires opens { IsTrue (opens opener) }
        ensures { PassesGroup (open_after [] opener) self.old self.new }
    {
        let mut depth = Depth::NONE.after(opener);
        while let Some(place) = self.step() {
            depth = depth.after(place);
            if depth.is_none() {
                return;
            }
        }
    }

    /// The next place outside of brackets. The walk goes on behind the group, where it opens one.
    pub fn next_outer(&mut self) -> Option<Place>
        ensures { MatchOption result (IsAtEnd self.old self.new)
            (λ place. PassesOuter place self.old self.new) }
    {
        let place = self.step()?;
        if !place.opens() {
            return Some(place);
        }
        self.pass_group(place);
        Some(place)
    }
}
