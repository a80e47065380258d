//! A collector: it serves the connections that come through a door, at its own desk.
ghost use Rattle.std.specs.Prelude.{◌≡◌, ◌⊎◌, ◌<◌, ◌^◌, List, true};
ghost use Rattle.soc_collect.specs.Asked.{AsksAll, Step};
ghost use Rattle.soc_collect.specs.Tallies.{nothing_served};

use soc_collect::{Naming, Shared, Tally, Ticket, collect};
use soc_desk::KeepingDesk;
use soc_edge::{Clock, Draws};
use soc_http::Buffer;
use soc_listen::Listener;
use soc_session::{Setting, Stacks};
use std::sync::Wait;
use std::sync::ledger::Ledger;

/// A collector's desk, the buffer of its connections, and what it has served.
#[derive(Drop)]
pub(crate) struct Collector<K, X, N: Ledger, M: Ledger> {
    pub(crate) desk: K,
    pub(crate) buffer: Buffer,
    pub(crate) served: Tally<X>,
    pub(crate) ticket: Ticket<N, M>,
}

impl<K: KeepingDesk, X, N: Ledger, M: Ledger> Collector<K, X, N, M> {
    /// Serves one connection after another, until a receipt says stopped or no further one comes.
    pub(crate) fn collect<S: Stacks, J: Naming, L: Listener<Link = X>, C: Clock, W: Draws, R: Wait>(
        &mut self,
        rt: &R,
        setting: &Setting<'_, S>,
        shared: &Shared<L, N, M, J, C, W>,
    )
        requires new { (self.old.served ≡ nothing_served) × (K.added self.old.desk ≡ 0) }
        requires ticket { (self.old.ticket.handed.parts ≡ 1) × (self.old.ticket.refused.parts ≡ 1)
            × (self.old.ticket.handed.amount ≡ 0) × (self.old.ticket.refused.amount ≡ 0) }
        ensures asks { (steps : List Step) × AsksAll K.Asks self.old.desk steps self.new.desk }
        ensures served { (self.new.served.connections ≡ self.new.ticket.handed.amount)
            × (self.new.served.kept ≡ K.added self.new.desk) × (self.new.served.kept < 2 ^ 60) }
        ensures ticket { (self.new.ticket.handed.parts ≡ 1) × (self.new.ticket.refused.parts ≡ 1) }
        ensures over { (self.new.served.stopped ≡ true) ⊎ (0 < self.new.ticket.refused.amount) }
    {
        collect(
            rt,
            setting,
            &mut self.desk,
            &mut self.served,
            &mut self.ticket,
            &mut self.buffer,
            shared,
        )
    }
}
