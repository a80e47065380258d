//! The crashes that a processor took, and what became of them.
ghost use Rattle.std.specs.Prelude.{◌≡◌, ◌++◌, [], ◌∷◌, if◌then◌else◌, OnOk, OnErr, ◌<◌, length, vec_capacity};
ghost use Rattle.soc_service.specs.Works.{is_made, is_missed, is_stale};

use crate::process::Outcome;
use soc_base::NoMemory;
use soc_raw::CrashId;
use std::alloc::Global;

/// The crashes that a processor took, in order, and those of each outcome.
#[derive(Drop)]
pub(crate) struct Lists {
    pub(crate) taken: Vec<CrashId>,
    pub(crate) made: Vec<CrashId>,
    pub(crate) stale: Vec<CrashId>,
    pub(crate) missed: Vec<CrashId>,
}

impl Lists {
    /// No crashes.
    pub(crate) fn new(alloc: Global) -> Lists
        ensures { (result.taken.items ≡ []) × (result.made.items ≡ []) × (result.stale.items ≡ [])
            × (result.missed.items ≡ []) }
    {
        Lists {
            taken: Vec::new(alloc),
            made: Vec::new(alloc),
            stale: Vec::new(alloc),
            missed: Vec::new(alloc),
        }
    }

    /// Notes what became of a crash.
    pub(crate) fn note(&mut self, id: CrashId, outcome: Outcome) -> Result<(), NoMemory>
        ensures taken { self.new.taken ≡ self.old.taken }
        ensures made { OnOk result (self.new.made.items
            ≡ (if is_made outcome then self.old.made.items ++ id ∷ [] else self.old.made.items)) }
        ensures stale { OnOk result (self.new.stale.items
            ≡ (if is_stale outcome then self.old.stale.items
            ++ id ∷ [] else self.old.stale.items)) }
        ensures missed { OnOk result (self.new.missed.items
            ≡ (if is_missed outcome then self.old.missed.items
            ++ id ∷ [] else self.old.missed.items)) }
        ensures err { OnErr result ((self.new.made.items ≡ self.old.made.items)
            × (self.new.stale.items ≡ self.old.stale.items)
            × (self.new.missed.items ≡ self.old.missed.items)) }
    {
        match outcome {
            Outcome::Made => self.made.push(id)?,
            Outcome::Stale => self.stale.push(id)?,
            Outcome::Missed => self.missed.push(id)?,
        }
        Ok(())
    }
}
