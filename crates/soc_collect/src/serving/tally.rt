//! The count of what was served.
ghost use Rattle.std.specs.Prelude.{◌≡◌, ◌+◌, ◌<◌, ◌^◌};
ghost use Rattle.soc_collect.specs.Tallies.{nothing_served, together, with_one};

use std::marker::{Model, PhantomData};

/// What was served: how many connections, how many changes that the journal keeps, and stops, came of them, and whether
/// a receipt said that the desk has stopped. Only `serve_one` counts, and `add` puts two counts together.
#[derive(Drop)]
pub struct Tally<X> {
    connections: u64,
    kept: u64,
    stopped: bool,
    of: PhantomData<X>,
}

impl<X> Model for Tally<X> {
    ghost use Rattle.soc_collect.specs.Tallies.{Counts};

    ghost Value = { Counts };

    ghost view = { λ t. record { connections = t.connections; kept = t.kept; stopped = t.stopped } };
}

impl<X> Tally<X> {
    /// Nothing was served.
    pub fn new() -> Tally<X>
        ensures { result ≡ nothing_served }
    {
        Tally {
            connections: 0,
            kept: 0,
            stopped: false,
            of: PhantomData,
        }
    }

    /// How many connections were served.
    pub fn connections(&self) -> u64
        ensures { result ≡ self.now.connections }
    {
        self.connections
    }

    /// How many changes that the journal keeps, and stops, came of them.
    pub fn kept(&self) -> u64
        ensures { result ≡ self.now.kept }
    {
        self.kept
    }

    /// Whether a receipt said that the desk has stopped.
    pub fn stopped(&self) -> bool
        ensures { result ≡ self.now.stopped }
    {
        self.stopped
    }

    /// Adds what another one counts.
    pub fn add(&mut self, other: Tally<X>)
        requires connections { self.old.connections + other.connections < 2 ^ 64 }
        requires kept { self.old.kept + other.kept < 2 ^ 64 }
        ensures { self.new ≡ together self.old other }
    {
        self.connections += other.connections;
        self.kept += other.kept;
        self.stopped = self.stopped || other.stopped;
    }

    /// One more connection was served.
    pub(super) fn count(&mut self, kept: u64, stopped: bool)
        requires connections { self.old.connections + 1 < 2 ^ 64 }
        requires kept { self.old.kept + kept < 2 ^ 64 }
        ensures { self.new ≡ with_one self.old kept stopped }
    {
        self.connections += 1;
        self.kept += kept;
        self.stopped = self.stopped || stopped;
    }
}
