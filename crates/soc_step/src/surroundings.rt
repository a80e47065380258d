//! What a step looks up beside the frame's registers.
ghost use Rattle.std.specs.Prelude.{◌≡◌, ℕ, Bool, List, Option, option_map};
ghost use Rattle.soc_cfi.specs.Rules.{Rule};
ghost use Rattle.soc_cfi.specs.Views.{in_force};

use soc_cfi::{Memory, Rules};

/// The memory and the modules of a process. A step asks for words of the machine's width.
pub trait Surroundings: Memory {
    /// Whether an address lies in a module.
    ghost is_in_module: { Self → ℕ → Bool };

    /// Whether a word of the stack counts as a return address.
    ghost takes: { Self → ℕ → Bool };

    /// The rules in force at an address.
    ghost rules: { Self → ℕ → Option (List Rule) };

    /// Whether an address lies in a module.
    fn is_in_module(&self, address: u64) -> bool
        ensures { result ≡ is_in_module self.now address };

    /// Whether a word of the stack counts as a return address.
    fn takes(&self, word: u64) -> bool
        ensures { result ≡ takes self.now word };

    /// The rules in force at an address; `None` where its module has no symbols, or none of their
    /// `INIT` covers it.
    fn rules(&self, address: u64) -> Option<Rules<'_>>
        ensures { option_map in_force result ≡ rules self.now address };
}
