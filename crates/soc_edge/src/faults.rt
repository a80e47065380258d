//! Counts of faults.
ghost use Rattle.std.specs.Prelude.{◌≡◌, ◌≤◌, ℕ, Ok, IfOk, OnOk, OnErr};
ghost use Rattle.soc_edge.specs.Calls.{one_more};
ghost use Rattle.soc_edge.specs.Faults.{Rose};

use crate::Failed;

/// What counts how often a call of it has failed.
pub trait CountsFaults {
    ghost faults: { Self → ℕ };
}

/// What is lent has counted the same.
impl<P: CountsFaults> CountsFaults for &mut P {
    ghost faults = { λ p. P.faults p.now };
}

/// How often a call has failed.
#[derive(Clone, Copy, Drop)]
pub struct FaultCount {
    pub count: u64,
}

impl FaultCount {
    /// None yet.
    pub fn new() -> FaultCount
        ensures { result.count ≡ 0 }
    {
        FaultCount { count: 0 }
    }

    /// One more.
    pub fn fail(&mut self) -> Failed
        ensures counts { self.new.count ≡ one_more self.old.count }
        ensures never_falls { self.old.count ≤ self.new.count }
        ensures rose { Rose self.old.count self.new.count }
    {
        self.count = self.count.saturating_add(1);
        Failed
    }

    /// What a call answered, which counts where it is an error.
    pub fn counted<A: Drop, E: Drop>(&mut self, answer: Result<A, E>) -> Result<A, Failed>
        ensures value { IfOk result (λ value. answer ≡ Ok value) }
        ensures stays { OnOk result (self.new ≡ self.old) }
        ensures counts { OnErr result (self.new.count ≡ one_more self.old.count) }
        ensures never_falls { self.old.count ≤ self.new.count }
        ensures cause { OnErr result (Rose self.old.count self.new.count) }
    {
        match answer {
            Ok(value) => Ok(value),
            Err(_) => Err(self.fail()),
        }
    }
}
