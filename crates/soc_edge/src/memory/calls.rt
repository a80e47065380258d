//! Which calls of a stand-in fail.
ghost use Rattle.std.specs.Prelude.{◌≡◌, ◌≤◌, []};
ghost use Rattle.soc_edge.specs.Calls.{no_calls, is_due, passed, failed};
ghost use Rattle.soc_edge.specs.Faults.{Rose};

use super::lists::Numbers;
use crate::Failed;
use std::marker::Model;

/// The calls so far, and the numbers, counted from 0, of those that fail.
#[derive(Drop)]
pub struct CallCount {
    fails: Numbers,
    made: u64,
    failed: u64,
}

impl Model for CallCount {
    ghost use Rattle.soc_edge.specs.Calls.{Calls};

    ghost Value = { Calls };

    ghost view = { λ c. record { fails = c.fails; made = c.made; failed = c.failed } };
}

impl CallCount {
    pub fn new(fails: Numbers) -> CallCount
        ensures { result ≡ no_calls fails }
    {
        CallCount {
            fails,
            made: 0,
            failed: 0,
        }
    }

    /// Whether the next call is one of those that fail.
    pub fn is_due(&self) -> bool
        ensures { result ≡ is_due self.now }
    {
        self.fails.as_slice().contains(&self.made)
    }

    /// A call was made, and succeeded.
    pub fn pass(&mut self)
        ensures { self.new ≡ passed self.old }
    {
        self.made = self.made.saturating_add(1);
    }

    /// A call was made, and failed.
    pub fn fail(&mut self) -> Failed
        ensures counted { self.new ≡ failed self.old }
        ensures rose { Rose self.old.failed self.new.failed }
        ensures never_falls { self.old.failed ≤ self.new.failed }
    {
        self.made = self.made.saturating_add(1);
        self.failed = self.failed.saturating_add(1);
        Failed
    }

    /// With no call made, and none that fails.
    pub fn afresh(self) -> CallCount
        ensures { result ≡ no_calls [] }
    {
        let mut fails = self.fails;
        fails.clear();
        CallCount::new(fails)
    }
}
