//! What makes regular expressions of texts.
ghost use Rattle.std.specs.Prelude.{◌≡◌, ◌≤◌, false, IfOk, IsErrOf};
ghost use Rattle.soc_edge.specs.Faults.{Rose};
ghost use Rattle.soc_siglists.specs.Patterns.{is_pattern};
ghost use Rattle.soc_siglists.specs.Makers.{IsMade};
ghost use Rattle.soc_siglists.specs.declared.maker.MakeError.TheVariants.{NoMemory as WantsMemory};

use regex::Regex;
use soc_base::NoMemory;
use soc_edge::CountsFaults;
use std::alloc::Global;
use thiserror::Error;

/// Why a pattern wasn't made.
#[derive(Clone, Copy, Debug, PartialEq, Eq, Error)]
pub enum MakeError {
    /// The text is no pattern, or one that is nested too deep.
    #[error("no pattern")]
    Syntax,
    /// The maker failed. It comes only where its count of faults rose in the call.
    #[error("a pattern couldn't be made")]
    Failed,
    /// An allocation was refused.
    #[error("out of memory")]
    NoMemory,
}

impl From<NoMemory> for MakeError {
    ghost from_gives = { λ _ error. error ≡ WantsMemory };

    fn from(_error: NoMemory) -> MakeError {
        MakeError::NoMemory
    }
}

/// A maker of regular expressions, in the syntax and with the default options of the crate `regex`. It counts the
/// refusals that are neither about syntax nor about memory.
pub trait Maker: CountsFaults {
    /// The expression that the text stands for.
    fn make(&mut self, alloc: Global, pattern: &str) -> Result<Regex, MakeError>
        ensures made { IfOk result (IsMade pattern.now) }
        ensures syntax { IsErrOf result MakeError.Syntax → is_pattern pattern.now ≡ false }
        ensures never_fall { Self.faults self.old ≤ Self.faults self.new }
        ensures cause { IsErrOf result MakeError.Failed
            → Rose (Self.faults self.old) (Self.faults self.new) };
}

/// A maker that is lent makes the same.
impl<M: Maker> Maker for &mut M {
    fn make(&mut self, alloc: Global, pattern: &str) -> Result<Regex, MakeError> {
        (**self).make(alloc, pattern)
    }
}
