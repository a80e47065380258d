//! The maker over the crate `regex`.
ghost use Rattle.std.specs.Prelude.{◌≡◌, ◌≤◌, true, false, IfOk, IsErrOf};
ghost use Rattle.soc_edge.specs.Faults.{Rose};
ghost use Rattle.soc_siglists.specs.Patterns.{is_pattern};
ghost use Rattle.soc_siglists.specs.Makers.{IsMade, counted};

use crate::maker::{MakeError, Maker};
use regex::{Error, Regex};
use soc_edge::CountsFaults;
use std::alloc::Global;
use std::marker::Model;

/// The expression that the text stands for. A pattern is refused as `Failed` where it is too big to compile.
pub(crate) fn make_regex(alloc: Global, pattern: &str) -> Result<Regex, MakeError>
    ensures made { IfOk result (IsMade pattern.now) }
    ensures syntax { IsErrOf result MakeError.Syntax → is_pattern pattern.now ≡ false }
    ensures too_big { IsErrOf result MakeError.Failed → is_pattern pattern.now ≡ true }
{
    match Regex::new(alloc, pattern) {
        Ok(made) => Ok(made),
        Err(Error::Syntax(_)) => Err(MakeError::Syntax),
        Err(Error::OutOfMemory) => Err(MakeError::NoMemory),
        Err(Error::CompiledTooBig) => Err(MakeError::Failed),
        Err(Error::Internal) => Err(MakeError::Failed),
    }
}

/// Makes what the crate `regex` makes. A pattern that passes its limit on size is a fault. Contracts see the count of
/// faults.
#[derive(Debug, Drop)]
pub struct RegexMaker {
    faults: u64,
}

impl Model for RegexMaker {
    ghost use Rattle.std.specs.Prelude.{ℕ};

    ghost Value = { ℕ };

    ghost view = { λ m. m.faults };
}

impl RegexMaker {
    /// A maker that hasn't failed.
    pub fn new() -> RegexMaker
        ensures { result ≡ 0 }
    {
        RegexMaker { faults: 0 }
    }
}

impl CountsFaults for RegexMaker {
    ghost faults = { λ m. m };
}

impl Maker for RegexMaker {
    /// The expression that the text stands for. `Failed` comes only for a pattern, where it is too big to compile.
    fn make(&mut self, alloc: Global, pattern: &str) -> Result<Regex, MakeError>
        ensures made { IfOk result (IsMade pattern.now) }
        ensures syntax { IsErrOf result MakeError.Syntax → is_pattern pattern.now ≡ false }
        ensures too_big { IsErrOf result MakeError.Failed → is_pattern pattern.now ≡ true }
        ensures count { self.new ≡ counted self.old result }
        ensures never_fall { self.old ≤ self.new }
        ensures cause { IsErrOf result MakeError.Failed → Rose self.old self.new }
    {
        let made = make_regex(alloc, pattern);
        if let Err(MakeError::Failed) = &made {
            self.faults = self.faults.saturating_add(1);
        }
        made
    }
}
