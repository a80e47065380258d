//! What makes the stack of a crash.
use soc_base::{Bytes, NoMemory};
use soc_raw::RawCrash;
use soc_schema::{Bare, Permissions};
use std::alloc::Global;

/// What makes the stack of a raw crash, as JSON.
pub trait Stacks {
    ghost use Rattle.std.specs.Prelude.{◌≡◌, List, ℕ, Option, IfOk};
    ghost use Rattle.soc_raw.specs.Record.{Crash};
    ghost use Rattle.soc_raw.specs.RawCrash.{crash_of};
    ghost use Rattle.soc_schema.specs.declared.permission.Permissions.{Permissions};

    // The stack of each raw crash, where it has one, with what is shown under these permissions.
    ghost stack_of: { Self → Permissions → Crash → Option (List ℕ) };

    /// The stack of a raw crash, with what is shown under these permissions. `None` where it has none.
    fn stack(
        &self,
        alloc: Global,
        shown: Permissions,
        raw: &RawCrash,
    ) -> Result<Option<Bytes>, NoMemory>
        ensures { IfOk result (λ stack. stack ≡ stack_of self.now shown (crash_of raw.now)) };
}

/// A reporter without lists and symbols makes no stack.
impl Stacks for Bare {
    ghost use Rattle.std.specs.Prelude.{None};

    ghost stack_of = { λ _ _ _. None };

    fn stack(
        &self,
        _alloc: Global,
        _shown: Permissions,
        _raw: &RawCrash,
    ) -> Result<Option<Bytes>, NoMemory> {
        Ok(None)
    }
}
