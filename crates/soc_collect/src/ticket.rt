//! What a thread that takes turns at a door has of it.
ghost use Rattle.std.specs.Prelude.{◌≡◌, ◌+◌, ◌<◌};

use std::sync::ledger::{Ledger, Share};

/// A share in the counts of a door: how many connections were handed out on this ticket, and how often none was.
#[derive(Drop)]
pub struct Ticket<N: Ledger, M: Ledger> {
    pub handed: Share<N>,
    pub refused: Share<M>,
}

impl<N: Ledger, M: Ledger> Ticket<N, M> {
    /// A ticket of one part of this one, on which nothing was counted yet.
    pub fn split_off(&mut self) -> Ticket<N, M>
        requires parts { (0 < self.old.handed.parts) × (0 < self.old.refused.parts) }
        requires unused { (self.old.handed.amount ≡ 0) × (self.old.refused.amount ≡ 0) }
        ensures parts { (result.handed.parts ≡ 1) × (result.refused.parts ≡ 1) }
        ensures unused { (result.handed.amount ≡ 0) × (result.refused.amount ≡ 0) }
        ensures parts_left { (self.new.handed.parts + 1 ≡ self.old.handed.parts)
            × (self.new.refused.parts + 1 ≡ self.old.refused.parts) }
        ensures still_unused { (self.new.handed.amount ≡ 0) × (self.new.refused.amount ≡ 0) }
    {
        Ticket {
            handed: self.handed.split_off(1, 0),
            refused: self.refused.split_off(1, 0),
        }
    }

    /// Adds the parts of another ticket, and what was counted on it.
    pub fn merge(&mut self, other: Ticket<N, M>)
        ensures handed_parts { self.new.handed.parts ≡ self.old.handed.parts + other.handed.parts }
        ensures refused_parts { self.new.refused.parts
            ≡ self.old.refused.parts + other.refused.parts }
        ensures handed { self.new.handed.amount ≡ self.old.handed.amount + other.handed.amount }
        ensures refused { self.new.refused.amount ≡ self.old.refused.amount + other.refused.amount }
    {
        let Ticket { handed, refused } = other;
        self.handed.merge(handed);
        self.refused.merge(refused);
    }
}
