//! The symbols of modules.
ghost use Rattle.std.specs.Prelude.{◌≡◌, ℕ, List, Option};
ghost use Rattle.std.specs.Option.{option_copied};
ghost use Rattle.soc_symfile.specs.Records.{Records};
ghost use Rattle.soc_walk.specs.Process.{NoneLonger};

use soc_symfile::SymFile;

/// Symbol files by the debug files and debug ids of modules.
pub trait Symbols {
    /// The records of a debug file's symbol file.
    ghost symbols: { Self → List ℕ → List ℕ → Option Records };

    /// The symbol file of a debug file with an id.
    fn symbols(&self, debug_file: &str, debug_id: &str) -> Option<&SymFile<'_>>
        ensures { option_copied result ≡ symbols self.now debug_file.now debug_id.now };

    /// The most bytes that the name of a debug file with symbols has. A longer name isn't decoded.
    fn longest_name(&self) -> usize
        ensures { NoneLonger (symbols self.now) result };
}
