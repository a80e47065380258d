//! The stations of collectors and processors: each has a seat of the hall and a pass of the ring.
ghost use Rattle.std.specs.Prelude.{◌≡◌, ◌+◌, ◌≤◌, ◌<◌, ◌++◌, [], ◌∷◌, length, All, IfOk, IfSome, IsSomeAnd, Some, vec_capacity, vec_len};
ghost use Rattle.soc_collect.specs.Tallies.{nothing_served};
ghost use Rattle.soc_hall.specs.Seats.{IsNew, IsSeatOf, known_of, room_of, seats_in};
ghost use Rattle.soc_pool.specs.Passes.{IsNew as IsNewPass, IsPassOf, IsRollOf, all_of, passes_in, roll_of, room_of as pass_room};

use crate::collector::Collector;
use crate::crew::Crew;
use crate::processor::Processor;
use soc_base::NoMemory;
use soc_collect::{Tally, Ticket};
use soc_hall::{Seat, Seats};
use soc_http::Buffer;
use soc_pool::{Jobs, Pass, Passes};
use soc_schema::Reporter;
use soc_service::{Gate, HallDesk, SharedDesk, Site};
use std::alloc::Global;
use std::snapshot::Snapshot;
use std::sync::Wait;
use std::sync::ledger::Ledger;

/// What a crew needs beside its hall: a ring, its passes, and a buffer for each collector.
#[derive(Drop)]
pub(crate) struct Stock {
    pub(crate) jobs: Jobs,
    pub(crate) passes: Passes,
    // Whoever starts the crew puts jobs by this one.
    pub(crate) own: Pass,
    pub(crate) buffers: Vec<Buffer>,
}

impl Stock {
    pub(crate) fn new(alloc: Global, crew: Crew) -> Result<Stock, NoMemory>
        requires { (crew.collectors ≤ 8) × (crew.processors ≤ 8) }
        ensures own { IfOk result (λ stock. IsPassOf stock.jobs stock.own × IsNewPass stock.own) }
        ensures passes { IfOk result (λ stock.
            All (λ pass. IsPassOf stock.jobs pass × IsNewPass pass) (passes_in stock.passes)
            × (length (passes_in stock.passes) ≡ crew.collectors + crew.processors)) }
        ensures roll { IfOk result (λ stock. IsRollOf stock.jobs stock.passes
            × (all_of stock.passes ≡ crew.collectors + crew.processors + 1)
            × (crew.collectors + crew.processors + 1 ≤ pass_room stock.passes)) }
        ensures buffers { IfOk result (λ stock. vec_len stock.buffers ≡ crew.collectors) }
    {
        let (jobs, mut passes) = Jobs::new(alloc, crew.collectors + crew.processors + 1)?;
        let buffers = buffers(alloc, crew.collectors)?;
        let Some(own) = passes.pop() else {
            unreachable!()
        };
        Ok(Stock {
            jobs,
            passes,
            own,
            buffers,
        })
    }
}

/// So many buffers.
fn buffers(alloc: Global, count: u32) -> Result<Vec<Buffer>, NoMemory>
    ensures { IfOk result (λ list. vec_len list ≡ count) }
{
    let mut list = Vec::with_capacity(alloc, count as usize)?;
    for made in 0..count {
        list.push_reserved(Buffer::new(alloc)?);
    }
    Ok(list)
}

/// A seat and a pass.
fn station<T: SharedDesk>(seats: &mut Seats<T>, passes: &mut Passes) -> (Seat<T>, Pass)
    requires seats { 0 < length (seats_in seats.old) }
    requires passes { 0 < length (passes_in passes.old) }
    ensures seat { (seats_in seats.old ≡ seats_in seats.new ++ result.0 ∷ [])
        × (room_of seats.new ≡ room_of seats.old) }
    ensures pass { passes_in passes.old ≡ passes_in passes.new ++ result.1 ∷ [] }
    ensures roll { (roll_of passes.new ≡ roll_of passes.old)
        × (pass_room passes.new ≡ pass_room passes.old) }
{
    let (Some(seat), Some(pass)) = (seats.pop(), passes.pop()) else {
        unreachable!()
    };
    (seat, pass)
}

/// Gives a seat and a pass back.
pub(crate) fn give_back<T: SharedDesk>(
    seats: &mut Seats<T>,
    passes: &mut Passes,
    seat: Seat<T>,
    pass: Pass,
)
    requires seats { length (seats_in seats.old) < room_of seats.old }
    requires passes { length (passes_in passes.old) < pass_room passes.old }
    ensures seat { (seats_in seats.new ≡ seats_in seats.old ++ seat ∷ [])
        × (room_of seats.new ≡ room_of seats.old) }
    ensures pass { passes_in passes.new ≡ passes_in passes.old ++ pass ∷ [] }
    ensures roll { (roll_of passes.new ≡ roll_of passes.old)
        × (pass_room passes.new ≡ pass_room passes.old) }
{
    seats.push(seat);
    passes.push(pass);
}

/// A collector for each buffer.
pub(crate) fn collectors<'h, T: SharedDesk, G: Gate, R: Wait, X: Drop, N: Ledger, M: Ledger>(
    site: &'h Site<'h, T, G, R>,
    opened: &Snapshot<T>,
    mut list: Vec<Collector<HallDesk<'h, T, G, R>, X, N, M>>,
    mut buffers: Vec<Buffer>,
    seats: &mut Seats<T>,
    passes: &mut Passes,
    ticket: &mut Ticket<N, M>,
) -> Vec<Collector<HallDesk<'h, T, G, R>, X, N, M>>
    requires list { (list.items ≡ []) × (vec_len buffers ≤ vec_capacity list) }
    requires seats { All (λ seat. IsSeatOf site.now.hall.now seat
        × IsNew (T.basis_of opened.now.value) (T.log_of opened.now.value) (known_of seat))
        (seats_in seats.old) }
    requires passes { All (λ pass. IsPassOf site.now.jobs.now pass × IsNewPass pass)
        (passes_in passes.old) }
    requires enough { (vec_len buffers ≤ length (seats_in seats.old))
        × (vec_len buffers ≤ length (passes_in passes.old))
        × (vec_len buffers < ticket.old.handed.parts)
        × (vec_len buffers < ticket.old.refused.parts) }
    requires unused { (ticket.old.handed.amount ≡ 0) × (ticket.old.refused.amount ≡ 0) }
    ensures count { vec_len result ≡ vec_len buffers }
    ensures each { All (λ c. (c.desk.hall.now ≡ site.now.hall.now)
        × IsNew (T.basis_of opened.now.value) (T.log_of opened.now.value)
        (known_of c.desk.began.value)
        × (c.served ≡ nothing_served) × (c.desk.kept ≡ 0)
        × (c.ticket.handed.parts ≡ 1) × (c.ticket.refused.parts ≡ 1) × (c.ticket.handed.amount ≡ 0)
        × (c.ticket.refused.amount ≡ 0)
        × (c.desk.jobs.now ≡ site.now.jobs.now) × IsSomeAnd c.desk.pass (λ q. IsNewPass q))
        result.items }
    ensures seats { All (λ seat. IsSeatOf site.now.hall.now seat
        × IsNew (T.basis_of opened.now.value) (T.log_of opened.now.value) (known_of seat))
        (seats_in seats.new) }
    ensures passes { All (λ pass. IsPassOf site.now.jobs.now pass × IsNewPass pass)
        (passes_in passes.new) }
    ensures roll { (roll_of passes.new ≡ roll_of passes.old)
        × (pass_room passes.new ≡ pass_room passes.old) }
    ensures left { (length (seats_in seats.new) + vec_len buffers ≡ length (seats_in seats.old))
        × (room_of seats.new ≡ room_of seats.old)
        × (length (passes_in passes.new) + vec_len buffers ≡ length (passes_in passes.old)) }
    ensures parts { (ticket.new.handed.parts + vec_len buffers ≡ ticket.old.handed.parts)
        × (ticket.new.refused.parts + vec_len buffers ≡ ticket.old.refused.parts) }
    ensures unused { (ticket.new.handed.amount ≡ 0) × (ticket.new.refused.amount ≡ 0) }
{
    while let Some(buffer) = buffers.pop() {
        let (seat, pass) = station(seats, passes);
        list.push_reserved(Collector {
            desk: HallDesk::new(site, seat, pass),
            buffer,
            served: Tally::new(),
            ticket: ticket.split_off(),
        });
    }
    list
}

/// So many processors.
pub(crate) fn processors<'h, T: SharedDesk, P: Reporter, G: Gate, R: Wait>(
    site: &'h Site<'h, T, G, R>,
    opened: &Snapshot<T>,
    reporter: &'h P,
    mut list: Vec<Processor<'h, T, P, G, R>>,
    count: u32,
    seats: &mut Seats<T>,
    passes: &mut Passes,
) -> Vec<Processor<'h, T, P, G, R>>
    requires list { (list.items ≡ []) × (count ≤ vec_capacity list) }
    requires seats { All (λ seat. IsSeatOf site.now.hall.now seat
        × IsNew (T.basis_of opened.now.value) (T.log_of opened.now.value) (known_of seat))
        (seats_in seats.old) }
    requires passes { All (λ pass. IsPassOf site.now.jobs.now pass × IsNewPass pass)
        (passes_in passes.old) }
    requires enough { (count ≤ length (seats_in seats.old))
        × (count ≤ length (passes_in passes.old)) }
    requires reporter { (T.desk_of (T.basis_of opened.now.value)).row_of ≡ P.row_of reporter.now }
    ensures count { vec_len result ≡ count }
    ensures each { All (λ p. ((p.seat ≡ Some p.began.value)
        × IsSeatOf p.site.now.hall.now p.began.value
        × IsSomeAnd p.pass (λ q. IsPassOf p.site.now.jobs.now q × IsNewPass q)
        × IfSome (known_of p.began.value).basis
        (λ basis. (T.desk_of basis).row_of ≡ P.row_of p.reporter.now))
        × (p.site.now.hall.now ≡ site.now.hall.now)
        × IsNew (T.basis_of opened.now.value) (T.log_of opened.now.value) (known_of p.began.value)
        × (p.site.now.jobs.now ≡ site.now.jobs.now))
        result.items }
    ensures roll { (roll_of passes.new ≡ roll_of passes.old)
        × (pass_room passes.new ≡ pass_room passes.old) }
    ensures left { (length (seats_in seats.new) + count ≡ length (seats_in seats.old))
        × (room_of seats.new ≡ room_of seats.old)
        × (length (passes_in passes.new) + count ≡ length (passes_in passes.old)) }
{
    for made in 0..count {
        let (seat, pass) = station(seats, passes);
        let began = Snapshot::of(&seat);
        list.push_reserved(Processor {
            site,
            reporter,
            seat: Some(seat),
            pass: Some(pass),
            began,
        });
    }
    list
}
