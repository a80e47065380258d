//! What a step on ARM64 asks of the modules of a process.
ghost use Rattle.std.specs.Prelude.{◌≡◌, ℕ, Bool, List, Option, option_map};
ghost use Rattle.soc_cfi.specs.Rules.{Rule};
ghost use Rattle.soc_cfi.specs.Views.{in_force};

use soc_cfi::Rules;

/// The modules of a process.
pub trait Places {
    /// Whether an address lies in a module.
    ghost in_module: { Self → ℕ → Bool };

    /// Whether an address can be code.
    ghost in_code: { Self → ℕ → Bool };

    /// The rules in force at an address.
    ghost rules: { Self → ℕ → Option (List Rule) };

    /// Whether an address lies in a module.
    fn in_module(&self, address: u64) -> bool
        ensures { result ≡ in_module self.now address };

    /// Whether an address can be code. It can't where it lies in no module, and where its module has
    /// symbols and none of their functions covers it.
    fn in_code(&self, address: u64) -> bool
        ensures { result ≡ in_code self.now address };

    /// The rules in force at an address; `None` where its module has no symbols, or none of their
    /// `INIT` covers it.
    fn rules(&self, address: u64) -> Option<Rules<'_>>
        ensures { option_map in_force result ≡ rules self.now address };
}
