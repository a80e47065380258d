//! Connections of a shared listener, served one after another.
ghost use Rattle.std.specs.Prelude.{◌≡◌, ◌<◌, ◌^◌, ◌⊎◌, List, true};
ghost use Rattle.soc_collect.specs.Asked.{AsksAll, Step};
ghost use Rattle.soc_collect.specs.Tallies.{nothing_served};

use crate::door::Naming;
use crate::serving::{Tally, serve_one};
use crate::shared::{Shared, SharedClock, SharedDraws};
use crate::ticket::Ticket;
use soc_desk::KeepingDesk;
use soc_edge::{Clock, Draws};
use soc_http::Buffer;
use soc_listen::Listener;
use soc_session::{Setting, Stacks};
use std::sync::Wait;
use std::sync::ledger::Ledger;

/// Serves the connections that a shared listener hands out, one after another, until a receipt says stopped or no further
/// one comes.
pub fn collect<
    K: KeepingDesk,
    S: Stacks,
    L: Listener,
    N: Ledger,
    M: Ledger,
    J: Naming,
    C: Clock,
    W: Draws,
    R: Wait,
>(
    rt: &R,
    setting: &Setting<'_, S>,
    desk: &mut K,
    served: &mut Tally<L::Link>,
    ticket: &mut Ticket<N, M>,
    buffer: &mut Buffer,
    shared: &Shared<L, N, M, J, C, W>,
)
    requires unserved { served.old ≡ nothing_served }
    requires unused { (ticket.old.handed.amount ≡ 0) × (ticket.old.refused.amount ≡ 0) }
    requires parts { (0 < ticket.old.handed.parts) × (0 < ticket.old.refused.parts) }
    requires none_added { K.added desk.old ≡ 0 }
    ensures asks { (steps : List Step) × AsksAll K.Asks desk.old steps desk.new }
    ensures connections { served.new.connections ≡ ticket.new.handed.amount }
    ensures kept { (served.new.kept ≡ K.added desk.new) × (served.new.kept < 2 ^ 60) }
    ensures parts { (ticket.new.handed.parts ≡ ticket.old.handed.parts)
        × (ticket.new.refused.parts ≡ ticket.old.refused.parts) }
    ensures over { (served.new.stopped ≡ true) ⊎ (0 < ticket.new.refused.amount) }
{
    let mut clock = SharedClock::new(rt, &shared.clock);
    let mut draws = SharedDraws::new(rt, &shared.draws);
    for _ in rt.forever() {
        let Some(conn) = shared.door.lock(rt).accept(ticket) else {
            return;
        };
        drop(serve_one(setting, desk, served, conn, buffer, &mut clock, &mut draws));
        if served.stopped() {
            return;
        }
    }
    unreachable!()
}
