//! A maker that fails when it is told to.
ghost use Rattle.std.specs.Prelude.{◌≡◌, ◌≤◌, ◌↔◌, ◌⊎◌, true, false, IfOk, IsErrOf, IsTrue};
ghost use Rattle.soc_edge.specs.Calls.{Calls, no_calls, is_due};
ghost use Rattle.soc_edge.specs.Faults.{Rose};
ghost use Rattle.soc_siglists.specs.Patterns.{is_pattern};
ghost use Rattle.soc_siglists.specs.Makers.{IsMade, after_make};

use crate::maker::{MakeError, Maker};
use crate::regex_maker::make_regex;
use regex::Regex;
use soc_edge::{CallCount, CountsFaults, Numbers};
use std::alloc::Global;
use std::marker::Model;

/// Makes what `RegexMaker` makes, but for the calls with the numbers that it was given, which fail.
#[derive(Drop)]
pub struct FailingMaker {
    calls: CallCount,
}

impl Model for FailingMaker {
    ghost use Rattle.soc_edge.specs.Calls.{Calls};

    ghost Value = { Calls };

    ghost view = { λ m. m.calls };
}

impl FailingMaker {
    /// A maker whose calls with these numbers fail, counted from 0.
    pub fn new(fails: Numbers) -> FailingMaker
        ensures { result ≡ no_calls fails }
    {
        FailingMaker {
            calls: CallCount::new(fails),
        }
    }

    /// Whether the next call is one of those that fail.
    fn is_due(&self) -> bool
        ensures { result ≡ is_due self.now }
    {
        self.calls.is_due()
    }

    /// What the next call answers.
    fn answer(&self, alloc: Global, pattern: &str) -> Result<Regex, MakeError>
        ensures made { IfOk result (IsMade pattern.now) }
        ensures syntax { IsErrOf result MakeError.Syntax → is_pattern pattern.now ≡ false }
        ensures due { IsTrue (is_due self.now) → IsErrOf result MakeError.Failed }
        ensures fails { IsErrOf result MakeError.Failed → IsTrue (is_due self.now)
            ⊎ (is_pattern pattern.now ≡ true) }
    {
        if self.is_due() {
            return Err(MakeError::Failed);
        }
        make_regex(alloc, pattern)
    }
}

impl CountsFaults for FailingMaker {
    ghost faults = { λ m. m.failed };
}

impl Maker for FailingMaker {
    /// The expression that the text stands for. `Failed` comes where the call is one of those that fail, and for a
    /// pattern that is too big to compile.
    fn make(&mut self, alloc: Global, pattern: &str) -> Result<Regex, MakeError>
        ensures made { IfOk result (IsMade pattern.now) }
        ensures syntax { IsErrOf result MakeError.Syntax → is_pattern pattern.now ≡ false }
        ensures due { IsTrue (is_due self.old) → IsErrOf result MakeError.Failed }
        ensures fails { IsErrOf result MakeError.Failed → IsTrue (is_due self.old)
            ⊎ (is_pattern pattern.now ≡ true) }
        ensures after { self.new ≡ after_make self.old result }
        ensures never_fall { self.old.failed ≤ self.new.failed }
        ensures cause { IsErrOf result MakeError.Failed → Rose self.old.failed self.new.failed }
    {
        let answer = self.answer(alloc, pattern);
        match &answer {
            Err(MakeError::Failed) => {
                self.calls.fail();
            }
            _ => self.calls.pass(),
        }
        answer
    }
}
