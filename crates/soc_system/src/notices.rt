//! What the operator is told on standard error, a line at a time. No line has anything of a crash or a token.
ghost use Rattle.std.specs.Prelude.{◌≡◌};

use std::fmt::Display;
use std::io;
use std::time::{Clock, Instant};

/// For how many seconds a fault that comes again isn't told again.
const PAUSE: u64 = 60;

/// Tells a line. Where that fails there is nobody to tell.
pub(crate) fn tell<R: Eprint, D: Display + Drop>(rt: &R, line: D) {
    let _told = rt.eprintln(line);
}

/// Faults of one kind: the first is told, and then at most one a minute, with how many there were since.
#[derive(Drop)]
pub(crate) struct Faults {
    /// What failed.
    act: &'static str,
    /// What that means for the operator.
    meaning: &'static str,
    told: Option<Instant>,
    untold: u64,
}

impl Faults {
    /// None so far.
    pub(crate) fn new(act: &'static str, meaning: &'static str) -> Faults {
        Faults {
            act,
            meaning,
            told: None,
            untold: 0,
        }
    }

    /// Notes an error, if it is one, at the thing of this name, and gives back the answer.
    pub(crate) fn noted<R: Eprint + Clock, T: Drop>(
        &mut self,
        rt: &R,
        name: &str,
        answer: io::Result<T>,
    ) -> io::Result<T>
        ensures { result ≡ answer }
    {
        if let Err(error) = &answer {
            self.note(rt, name, error);
        }
        answer
    }

    /// Notes one more.
    pub(crate) fn note<R: Eprint + Clock>(&mut self, rt: &R, name: &str, error: &io::Error) {
        self.untold = self.untold.saturating_add(1);
        if self.was_just_told(rt) {
            return;
        }
        let (act, meaning, count) = (self.act, self.meaning, self.untold);
        if count > 1 {
            tell(
                rt,
                format_args!("socorro: {name}: {act}, {count} times since: {error}; {meaning}"),
            );
        } else {
            tell(
                rt,
                format_args!("socorro: {name}: {act}: {error}; {meaning}"),
            );
        }
        self.untold = 0;
        self.told = Instant::now(rt).ok();
    }

    /// Whether a line was told less than a minute ago.
    fn was_just_told<R: Clock>(&self, rt: &R) -> bool {
        match &self.told {
            Some(told) => told
                .elapsed(rt)
                .is_ok_and(|passed| passed.as_secs() < PAUSE),
            None => false,
        }
    }
}
