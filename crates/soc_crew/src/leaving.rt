//! What collectors and processors leave when they have ended.
ghost use Rattle.std.specs.Prelude.{◌≡◌, ◌⊎◌, ℕ, ◌+◌, ◌^◌, ◌≤◌, ◌<◌, List, [], ◌++◌, length, All, IsSomeAnd, true, vec_len};
ghost use Rattle.soc_hall.specs.Seats.{IsNew, IsSeatOf, known_of, room_of, seats_in};
ghost use Rattle.soc_pool.specs.Passes.{IsPassOf, passes_in, roll_of, room_of as pass_room, seen_of};
ghost use Rattle.soc_pool.specs.declared.pass.Pass.{Pass};
ghost use Rattle.soc_service.specs.Desks.{HasTurned};
ghost use Rattle.soc_crew.specs.Jobs.{OnlyPuts, TakesToEnd};
ghost use Rattle.soc_crew.specs.inner.Seated.{AreSeated};

use crate::collector::Collector;
use crate::processor::Processor;
use crate::stations::give_back;
use soc_collect::{Door, Naming, Tally, Ticket};
use soc_hall::Seats;
use soc_listen::Listener;
use soc_pool::Passes;
use soc_schema::Reporter;
use soc_service::{Gate, HallDesk, SharedDesk, Site};
use std::snapshot::Snapshot;
use std::sync::Wait;
use std::sync::ledger::Ledger;

/// Takes seats and passes of collectors back, and adds up what they have served.
pub(crate) fn leave_collectors<
    'h,
    T: SharedDesk,
    G: Gate,
    R: Wait,
    L: Listener,
    N: Ledger,
    M: Ledger,
    J: Naming,
>(
    site: &Site<'_, T, G, R>,
    opened: &Snapshot<T>,
    mut collectors: Vec<Collector<HallDesk<'h, T, G, R>, L::Link, N, M>>,
    seats: &mut Seats<T>,
    passes: &mut Passes,
    door: &mut Door<L, N, M, J>,
    ticket: &mut Ticket<N, M>,
) -> Tally<L::Link>
    requires each { All (λ c. (c.desk.hall.now ≡ site.now.hall.now)
        × IsNew (T.basis_of opened.now.value) (T.log_of opened.now.value)
        (known_of c.desk.began.value)
        × (c.served.connections ≡ c.ticket.handed.amount) × (c.served.kept ≡ c.desk.kept)
        × (c.served.kept < 2 ^ 60)
        × (c.ticket.handed.parts ≡ 1) × (c.ticket.refused.parts ≡ 1)
        × ((c.served.stopped ≡ true) ⊎ (0 < c.ticket.refused.amount))
        × (c.desk.jobs.now ≡ site.now.jobs.now)
        × IsSomeAnd c.desk.pass (λ q. OnlyPuts (seen_of q))) collectors.items }
    requires few { (0 < vec_len collectors) × (vec_len collectors ≤ 8)
        × (vec_len collectors ≤ room_of seats.old) × (vec_len collectors ≤ pass_room passes.old) }
    requires none { (seats_in seats.old ≡ []) × (passes_in passes.old ≡ [])
        × (ticket.old.handed.amount ≡ 0)
        × (ticket.old.refused.amount ≡ 0) × (0 < ticket.old.handed.parts) }
    ensures count { (length (seats_in seats.new) ≡ vec_len collectors.entry)
        × (room_of seats.new ≡ room_of seats.old) }
    ensures seats { All (λ seat. IsSeatOf site.now.hall.now seat) (seats_in seats.new) }
    ensures seated { ∥ AreSeated (T.basis_of opened.now.value)
        (T.log_of opened.now.value) result.kept (seats_in seats.new) ∥₁ }
    ensures passes { All (λ q. IsPassOf site.now.jobs.now q × OnlyPuts (seen_of q))
        (passes_in passes.new) × (length (passes_in passes.new) ≡ vec_len collectors.entry) }
    ensures roll { (roll_of passes.new ≡ roll_of passes.old)
        × (pass_room passes.new ≡ pass_room passes.old) }
    ensures connections { result.connections ≡ ticket.new.handed.amount }
    ensures parts { (ticket.new.handed.parts ≡ ticket.old.handed.parts + vec_len collectors.entry)
        × (ticket.new.refused.parts ≡ ticket.old.refused.parts + vec_len collectors.entry) }
    ensures over { (result.stopped ≡ true) ⊎ (0 < ticket.new.refused.amount) }
{
    let mut served = Tally::new();
    while let Some(collector) = collectors.pop() {
        let Collector {
            desk,
            served: own,
            ticket: part,
            ..
        } = collector;
        let (seat, pass) = desk.end();
        give_back(seats, passes, seat, pass);
        ticket.merge(part);
        door.confirm(ticket);
        served.add(own);
    }
    served
}

/// Takes seats and passes of processors back.
pub(crate) fn leave_processors<'h, T: SharedDesk, P: Reporter, G: Gate, R: Wait>(
    site: &Site<'_, T, G, R>,
    opened: &Snapshot<T>,
    mut processors: Vec<Processor<'h, T, P, G, R>>,
    seats: &mut Seats<T>,
    passes: &mut Passes,
)
    requires each { All (λ p. IsSomeAnd p.seat
        (λ s. IsSeatOf site.now.hall.now s × HasTurned (known_of p.began.value) (known_of s) 0)
        × IsNew (T.basis_of opened.now.value) (T.log_of opened.now.value) (known_of p.began.value)
        × IsSomeAnd p.pass (λ q. IsPassOf site.now.jobs.now q × TakesToEnd (seen_of q)))
        processors.items }
    requires room { (length (seats_in seats.old) + vec_len processors ≤ room_of seats.old)
        × (length (passes_in passes.old) + vec_len processors ≤ pass_room passes.old) }
    requires seats { All (λ seat. IsSeatOf site.now.hall.now seat) (seats_in seats.old) }
    ensures count { length (seats_in seats.new)
        ≡ length (seats_in seats.old) + vec_len processors.entry }
    ensures seats { All (λ seat. IsSeatOf site.now.hall.now seat) (seats_in seats.new) }
    ensures seated { (kept : ℕ) → ∥ AreSeated (T.basis_of opened.now.value)
        (T.log_of opened.now.value) kept (seats_in seats.old) ∥₁
        → ∥ AreSeated (T.basis_of opened.now.value) (T.log_of opened.now.value) kept
        (seats_in seats.new) ∥₁ }
    ensures passes { (more : List Pass) × (passes_in passes.new ≡ passes_in passes.old ++ more)
        × (length more ≡ vec_len processors.entry)
        × All (λ q. IsPassOf site.now.jobs.now q × TakesToEnd (seen_of q)) more }
    ensures roll { (roll_of passes.new ≡ roll_of passes.old)
        × (pass_room passes.new ≡ pass_room passes.old) }
{
    while let Some(processor) = processors.pop() {
        let Processor { seat, pass, .. } = processor;
        let (Some(seat), Some(pass)) = (seat, pass) else {
            unreachable!()
        };
        give_back(seats, passes, seat, pass);
    }
}
