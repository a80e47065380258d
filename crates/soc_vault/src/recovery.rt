//! Whoever takes the entries of a journal that is opened.
ghost use Rattle.std.specs.Prelude.{◌≡◌, ◌⊎◌, ◌+◌, ◌<◌, ◌≤◌, ◌^◌, ℕ, List, Option, [], ◌∷◌, ◌++◌, length, OnOk, IfErr, IsTrue};
ghost use Rattle.soc_journal.specs.Entries.{Entry, has_kind, second_version, head_size, max_body};
ghost use Rattle.soc_vault.specs.Openings.{entry_of, place_from};

use soc_base::Bytes;
use soc_journal::OpenError;
use std::alloc::Global;

/// An entry that was found on a disk.
#[derive(Debug, Drop)]
pub struct Found {
    /// Where its gate stands: a byte's offset on the disk.
    pub place: u64,
    /// One of the kinds of a journal: `A`, `Q`, `W` or `R`.
    pub kind: u8,
    /// At most 67,108,864 bytes.
    pub body: Bytes,
}

/// Whoever is given a journal's entries while it is opened.
pub trait Recover {
    // It was given these entries and no others, which stand one behind the other from a place on.
    ghost was_given: { Self → ℕ → List Entry → Type 0 };

    // Its name, where it has one.
    ghost name: { Self → Option (List ℕ) };

    // An entry that may not stand behind these.
    ghost refuses: { List Entry → Entry → Type 0 };

    /// Takes the next entry, or refuses it: with `BadEntry` at its place, or for want of memory.
    fn recover(&mut self, alloc: Global, found: Found) -> Result<(), OpenError>
        requires known { IsTrue (has_kind second_version found.kind) }
        requires short { length found.body ≤ max_body }
        requires within { found.place + head_size + length found.body < 2 ^ 64 }
        ensures name_stays { name self.new ≡ name self.old }
        ensures given { OnOk result ((start : ℕ) (entries : List Entry)
            → found.place ≡ place_from start entries
            → was_given self.old start entries
            → was_given self.new start (entries ++ entry_of found ∷ [])) }
        ensures refused { IfErr result
            (λ error. (error ≡ OpenError.NoMemory) ⊎ ((error ≡ OpenError.BadEntry found.place)
            × ((start : ℕ) (entries : List Entry) → found.place ≡ place_from start entries
            → was_given self.old start entries
            → refuses entries (entry_of found)))) };
}
