//! What is told of a journal that takes its time to open.
use crate::notices::tell;
use std::time::{Clock, Instant};

/// How far a later read may begin behind what was read before.
const OVERLAP: u64 = 1 << 20;

/// A file that is read for the first time, from its front to its end.
#[derive(Drop)]
pub(crate) struct Opening {
    length: u64,
    reached: u64,
    since: Option<Instant>,
    told: Option<Instant>,
}

impl Opening {
    /// An opening of so many bytes that begins now.
    pub(crate) fn begin<R: Clock>(rt: &R, length: u64) -> Opening {
        let since = Instant::now(rt).ok();
        Opening {
            length,
            reached: 0,
            since,
            told: since,
        }
    }

    /// So many bytes were read there. How far that is is told each second.
    pub(crate) fn note<R: Eprint + Clock>(&mut self, rt: &R, path: &str, place: u64, count: usize) {
        if place.saturating_add(OVERLAP) < self.reached {
            self.since = None;
        }
        self.reached = self.reached.max(place.saturating_add(count as u64));
        let is_over = self.reached >= self.length;
        if is_over || self.is_time(rt) {
            self.tell(rt, path);
            self.told = Instant::now(rt).ok();
        }
        if is_over {
            self.since = None;
        }
    }

    /// Whether the last line was told over a second ago.
    fn is_time<R: Clock>(&self, rt: &R) -> bool {
        match (&self.since, &self.told) {
            (Some(_), Some(told)) => told.elapsed(rt).is_ok_and(|passed| passed.as_secs() > 0),
            _ => false,
        }
    }

    /// Tells how far it is, where it has taken over a second.
    fn tell<R: Eprint + Clock>(&self, rt: &R, path: &str) {
        let Some(Ok(passed)) = self.since.as_ref().map(|since| since.elapsed(rt)) else {
            return;
        };
        if passed.as_secs() > 0 {
            let (length, reached, seconds) = (self.length, self.reached, passed.as_secs());
            let rate = reached / 1_000_000 / seconds.max(1);
            tell(
                rt,
                format_args!(
                    "socorro: {path}: opened {reached} of {length} bytes in {seconds} s, {rate} MB/s"
                ),
            );
        }
    }
}
