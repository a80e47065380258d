//! The whole crew at work, from its hall to the desk that the hall leaves.
ghost use Rattle.std.specs.Prelude.{◌≡◌, ◌⊎◌, ◌+◌, ◌≤◌, ◌<◌, ◌||◌, [], true, length, map, All, IfOk, IsErr, MatchOption, None, OnErr, vec_capacity, vec_len};
ghost use Rattle.soc_edge.specs.Faults.{Rose};
ghost use Rattle.soc_hall.specs.Seats.{IsNew, IsSeatOf, known_of, room_of, seats_in};
ghost use Rattle.soc_ledger.specs.Due.{due_ids};
ghost use Rattle.soc_pool.specs.Passes.{IsNew as IsNewPass, IsPassOf, passes_in, roll_of, room_of as pass_room, seen_in, seen_of};
ghost use Rattle.soc_collect.specs.Tallies.{nothing_served};
ghost use Rattle.soc_service.specs.Changes.{events_in};
ghost use Rattle.soc_crew.specs.Gains.{Ends};
ghost use Rattle.soc_crew.specs.Jobs.{PutsEnds, Shares, Starts};
ghost use Rattle.soc_crew.specs.inner.Seated.{AreSeated};

use crate::collector::Collector;
use crate::jobs::put_due;
use crate::leaving::{leave_collectors, leave_processors};
use crate::processor::Processor;
use crate::stations::{Stock, collectors, processors};
use crate::work::work;
use soc_base::NoMemory;
use soc_collect::{Door, Naming, Shared, Tally, Ticket};
use soc_edge::{Clock, Draws};
use soc_hall::{Hall, Seats};
use soc_http::Buffer;
use soc_listen::Listener;
use soc_pool::{Pass, Passes, RingEnd};
use soc_schema::Reporter;
use soc_service::{Gate, HallDesk, SharedDesk, Site};
use soc_session::{Setting, Stacks};
use std::marker::Brand;
use std::snapshot::Snapshot;
use std::sync::ledger::{Blank, Ledger};
use std::sync::{Mutex, Wait};
use std::thread::Threads;

/// How many collectors and processors there are, each from 1 to 8.
#[derive(Clone, Copy, Debug, PartialEq, Eq)]
pub struct Crew {
    pub collectors: u32,
    pub processors: u32,
}

/// What a crew goes by.
#[derive(Drop)]
pub struct CrewSetting<'s, S, P, G> {
    pub crew: Crew,
    /// What messages are answered by.
    pub session: Setting<'s, S>,
    /// What makes the reports: the desk's own.
    pub reporter: &'s P,
    /// What each turn passes.
    pub gate: &'s G,
}

/// What a crew leaves.
#[derive(Drop)]
pub struct CrewEnd<T, L: Listener> {
    pub desk: T,
    pub listener: L,
    /// Whether the listener has failed; `NoMemory` where memory was wanting before the first thread started.
    pub failed: Result<bool, NoMemory>,
    pub served: Tally<L::Link>,
    /// The end of the ring of jobs, where threads were started.
    pub jobs: Option<RingEnd>,
}

/// Serves the connections of a listener at one desk, by collectors and processors beside each other, until a receipt says
/// stopped, no further connection comes, or the listener fails. Where memory is wanting before the first thread starts, nothing
/// is served.
pub fn serve_together<
    's,
    R: Threads + Wait + Sync,
    T: SharedDesk + Send,
    S: Stacks + Send + Sync,
    P: Reporter + Sync,
    L: Listener,
    C: Clock + Send,
    W: Draws + Send,
    G: Gate + Sync,
>(
    rt: &'s R,
    setting: CrewSetting<'s, S, P, G>,
    desk: T,
    listener: L,
    clock: &mut C,
    draws: &mut W,
) -> CrewEnd<T, L>
    requires collectors { (0 < setting.crew.collectors) × (setting.crew.collectors ≤ 8) }
    requires processors { (0 < setting.crew.processors) × (setting.crew.processors ≤ 8) }
    requires reporter { (T.desk_of (T.basis_of desk)).row_of ≡ P.row_of setting.reporter.now }
    ensures ends { ∥ Ends T.answers (T.log_of desk) (T.log_of result.desk)
        (T.basis_of desk) (T.basis_of result.desk) result.served.kept ∥₁ }
    ensures handed { (L.told result.listener).handed
        ≡ (L.told listener).handed + result.served.connections }
    ensures no_fewer { (L.told listener).faults ≤ (L.told result.listener).faults }
    ensures failed { IfOk result.failed (λ failed. failed ≡ true
        → Rose (L.told listener).faults (L.told result.listener).faults) }
    ensures over { IfOk result.failed (λ failed. (result.served.stopped ≡ true)
        ⊎ ((failed || (L.told result.listener).ended) ≡ true)) }
    ensures unserved { OnErr result.failed (result.served ≡ nothing_served) }
    ensures jobs { MatchOption result.jobs (IsErr result.failed)
        (λ end. Shares (Starts (due_ids (events_in (T.log_of desk))) setting.entry.crew.processors)
        setting.entry.crew.collectors setting.entry.crew.processors (seen_in end)) }
{
    let parts = setting.crew.collectors as u64 + 1;
    serve_with::<Brand, Brand, Brand, R, T, S, P, L, C, W, G>(
        rt,
        setting,
        desk,
        listener,
        clock,
        draws,
        (Blank::new(parts), Blank::new(parts)),
    )
}

/// The same, with the ledgers by which the counts of connections handed out and refused are known.
fn serve_with<
    's,
    N: Ledger + Send + Sync,
    M: Ledger + Send + Sync,
    J: Naming + Send + Sync,
    R: Threads + Wait + Sync,
    T: SharedDesk + Send,
    S: Stacks + Send + Sync,
    P: Reporter + Sync,
    L: Listener,
    C: Clock + Send,
    W: Draws + Send,
    G: Gate + Sync,
>(
    rt: &'s R,
    setting: CrewSetting<'s, S, P, G>,
    desk: T,
    listener: L,
    clock: &mut C,
    draws: &mut W,
    blanks: (Blank, Blank),
) -> CrewEnd<T, L>
    requires collectors { (0 < setting.crew.collectors) × (setting.crew.collectors ≤ 8) }
    requires processors { (0 < setting.crew.processors) × (setting.crew.processors ≤ 8) }
    requires reporter { (T.desk_of (T.basis_of desk)).row_of ≡ P.row_of setting.reporter.now }
    requires listener { L.told listener ≡ J.opened }
    requires handed { (blanks.0.name ≡ N.name) × (blanks.0.parts ≡ N.parts)
        × (blanks.0.parts ≡ setting.crew.collectors + 1) }
    requires refused { (blanks.1.name ≡ M.name) × (blanks.1.parts ≡ M.parts)
        × (blanks.1.parts ≡ setting.crew.collectors + 1) }
    ensures ends { ∥ Ends T.answers (T.log_of desk) (T.log_of result.desk)
        (T.basis_of desk) (T.basis_of result.desk) result.served.kept ∥₁ }
    ensures handed { (L.told result.listener).handed
        ≡ (L.told listener).handed + result.served.connections }
    ensures no_fewer { (L.told listener).faults ≤ (L.told result.listener).faults }
    ensures failed { IfOk result.failed (λ failed. failed ≡ true
        → Rose (L.told listener).faults (L.told result.listener).faults) }
    ensures over { IfOk result.failed (λ failed. (result.served.stopped ≡ true)
        ⊎ ((failed || (L.told result.listener).ended) ≡ true)) }
    ensures unserved { OnErr result.failed (result.served ≡ nothing_served) }
    ensures jobs { MatchOption result.jobs (IsErr result.failed)
        (λ end. Shares (Starts (due_ids (events_in (T.log_of desk))) setting.entry.crew.processors)
        setting.entry.crew.collectors setting.entry.crew.processors (seen_in end)) }
{
    let crew = setting.crew;
    let alloc = setting.session.alloc;
    let Ok(stock) = Stock::new(alloc, crew) else {
        return unserved(desk, listener);
    };
    let Ok(collecting) = Vec::with_capacity(alloc, crew.collectors as usize) else {
        return unserved(desk, listener);
    };
    let Ok(processing) = Vec::with_capacity(alloc, crew.processors as usize) else {
        return unserved(desk, listener);
    };
    let Stock {
        jobs,
        mut passes,
        own,
        buffers,
    } = stock;
    let Ok(own) = put_due(rt, alloc, &jobs, own, &desk) else {
        return unserved(desk, listener);
    };
    let opened = Snapshot::of(&desk);
    let (hall, mut seats) = match Hall::over(alloc, desk, crew.collectors + crew.processors) {
        Ok(made) => made,
        Err(desk) => return unserved(desk, listener),
    };
    let (handed, refused) = blanks;
    let (door, mut ticket): (Door<L, N, M, J>, Ticket<N, M>) = Door::open(
        listener, handed, refused,
    );
    let site = Site {
        rt,
        alloc,
        hall: &hall,
        jobs: &jobs,
        gate: setting.gate,
    };
    let shared = Shared {
        door: Mutex::new(door),
        clock: Mutex::new(&mut *clock),
        draws: Mutex::new(&mut *draws),
    };
    let (served, door) = serve_in(
        &site,
        setting,
        &opened,
        own,
        collecting,
        processing,
        buffers,
        &mut seats,
        &mut passes,
        &mut ticket,
        shared,
    );
    let desk = hall.close(seats);
    let jobs = jobs.close(passes);
    let (listener, failed) = door.close(&mut ticket);
    CrewEnd {
        desk,
        listener,
        failed: Ok(failed),
        served,
        jobs: Some(jobs),
    }
}

/// The same in a hall, with lists that have room for collectors and processors. Seats, passes and the ticket go to the
/// threads, and come back when they have ended.
fn serve_in<
    'h,
    N: Ledger + Send + Sync,
    M: Ledger + Send + Sync,
    J: Naming + Send + Sync,
    R: Threads + Wait + Sync,
    T: SharedDesk + Send,
    S: Stacks + Send + Sync,
    P: Reporter + Sync,
    L: Listener,
    C: Clock + Send + Drop,
    W: Draws + Send + Drop,
    G: Gate + Sync,
>(
    site: &'h Site<'h, T, G, R>,
    setting: CrewSetting<'h, S, P, G>,
    opened: &Snapshot<T>,
    own: Pass,
    collecting: Vec<Collector<HallDesk<'h, T, G, R>, L::Link, N, M>>,
    processing: Vec<Processor<'h, T, P, G, R>>,
    buffers: Vec<Buffer>,
    seats: &mut Seats<T>,
    passes: &mut Passes,
    ticket: &mut Ticket<N, M>,
    shared: Shared<L, N, M, J, C, W>,
) -> (Tally<L::Link>, Door<L, N, M, J>)
    requires lists { (collecting.items ≡ []) × (vec_len buffers ≤ vec_capacity collecting)
        × (processing.items ≡ []) × (setting.crew.processors ≤ vec_capacity processing) }
    requires crew { (0 < vec_len buffers) × (vec_len buffers ≤ 8)
        × (0 < setting.crew.processors) × (setting.crew.processors ≤ 8) }
    requires reporter { (T.desk_of (T.basis_of opened.now.value)).row_of
        ≡ P.row_of setting.reporter.now }
    requires seats { All (λ seat. IsSeatOf site.now.hall.now seat
        × IsNew (T.basis_of opened.now.value) (T.log_of opened.now.value) (known_of seat))
        (seats_in seats.old) }
    requires passes { All (λ pass. IsPassOf site.now.jobs.now pass × IsNewPass pass)
        (passes_in passes.old) }
    requires own { IsPassOf site.now.jobs.now own }
    requires count { (length (seats_in seats.old) ≡ vec_len buffers + setting.crew.processors)
        × (length (seats_in seats.old) ≤ room_of seats.old)
        × (length (passes_in passes.old) ≡ vec_len buffers + setting.crew.processors)
        × (length (passes_in passes.old) + 1 ≤ pass_room passes.old) }
    requires ticket { (ticket.old.handed.amount ≡ 0) × (ticket.old.refused.amount ≡ 0)
        × (ticket.old.handed.parts ≡ vec_len buffers + 1)
        × (ticket.old.refused.parts ≡ vec_len buffers + 1) }
    ensures seats { All (λ seat. IsSeatOf site.now.hall.now seat) (seats_in seats.new)
        × (length (seats_in seats.new) ≡ length (seats_in seats.old)) }
    ensures seated { ∥ AreSeated (T.basis_of opened.now.value)
        (T.log_of opened.now.value) result.0.kept (seats_in seats.new) ∥₁ }
    ensures passes { All (λ pass. IsPassOf site.now.jobs.now pass) (passes_in passes.new)
        × (length (passes_in passes.new) ≡ length (passes_in passes.old) + 1)
        × (roll_of passes.new ≡ roll_of passes.old) }
    ensures jobs { Shares (PutsEnds setting.entry.crew.processors 0 (seen_of own))
        (vec_len buffers) setting.entry.crew.processors
        (map (λ pass. seen_of pass) (passes_in passes.new)) }
    ensures ticket { (result.0.connections ≡ ticket.new.handed.amount)
        × (ticket.new.handed.parts ≡ ticket.old.handed.parts)
        × (ticket.new.refused.parts ≡ ticket.old.refused.parts) }
    ensures over { (result.0.stopped ≡ true) ⊎ (0 < ticket.new.refused.amount) }
{
    let collecting = collectors(site, opened, collecting, buffers, seats, passes, ticket);
    let processing = processors(
        site,
        opened,
        setting.reporter,
        processing,
        setting.crew.processors,
        seats,
        passes,
    );
    let (collecting, processing, own) = work(
        site.rt,
        &setting.session,
        site.jobs,
        own,
        collecting,
        processing,
        &shared,
    );
    let mut door = shared.door.into_inner();
    let served = leave_collectors(site, opened, collecting, seats, passes, &mut door, ticket);
    leave_processors(site, opened, processing, seats, passes);
    passes.push(own);
    (served, door)
}

/// Nothing was served, for want of memory.
fn unserved<T, L: Listener>(desk: T, listener: L) -> CrewEnd<T, L>
    ensures { (result.desk ≡ desk) × (result.listener ≡ listener) × IsErr result.failed
        × (result.served ≡ nothing_served) × (result.jobs ≡ None) }
{
    CrewEnd {
        desk,
        listener,
        failed: Err(NoMemory),
        served: Tally::new(),
        jobs: None,
    }
}
