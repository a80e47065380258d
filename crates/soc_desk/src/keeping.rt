//! A desk that counts what it keeps.
ghost use Rattle.std.specs.Prelude.{◌≡◌};

use crate::desk::Desk;

/// A desk that counts what its commands have added for later runs.
pub trait KeepingDesk: Desk {
    ghost use Rattle.std.specs.Prelude.{ℕ, ◌<◌, ◌≤◌, ◌^◌};
    ghost use Rattle.soc_desk.specs.declared.desk.Command.{Command};
    ghost use Rattle.soc_desk.specs.declared.desk.Receipt.{Receipt};

    // How many changes that the journal keeps, and stops, its commands have added.
    ghost added: { Self → ℕ };

    /// How many changes that the journal keeps, and stops, its commands have added.
    fn kept(&self) -> u64
        ensures { result ≡ added self.now };

    // The count never falls, and a log is short.
    ghost added_grows: { (before : Self) (command : Command) (receipt : Receipt) (after : Self)
        → Self.Asks before command receipt after
        → (added before ≤ added after) × (added after < 2 ^ 60) };
}
