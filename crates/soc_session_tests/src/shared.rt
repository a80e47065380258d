//! Threads beside each other, over what they share.
ghost use Rattle.std.specs.Prelude.{◌≡◌, ◌+◌, vec_len};

use crate::expect::{holds, same};
use soc_base::{Bytes, NoMemory};
use soc_collect::{Door, Naming, SharedClock, SharedDraws, Ticket};
use soc_crew::side_by_side;
use soc_edge::{BytesList, Clock, Draws, Ids16, MemClock, MemDraws, Numbers};
use soc_listen::{Listener, MemListener};
use std::alloc::Global;
use std::marker::Brand;
use std::sync::ledger::{Blank, Ledger};
use std::sync::{Mutex, Wait};
use std::test::Fail;
use std::thread::Threads;

#[test]
fn each_is_worked_on_and_then_the_end_comes(rt: HostRuntime) -> Result<(), Fail> {
    let first = [1u32, 2, 3].to_vec(rt.alloc())?;
    let second = [10u32, 20].to_vec(rt.alloc())?;
    let (first, second, end) = side_by_side(
        &rt,
        first,
        second,
        &|place: usize, number: &mut u32| *number = number.wrapping_add(place as u32),
        &|_place: usize, number: &mut u32| *number = number.wrapping_mul(2),
        || 7u32,
    );
    same(&rt, first.as_slice(), [1, 3, 5].as_slice());
    same(&rt, second.as_slice(), [20, 40].as_slice());
    same(&rt, end, 7);
    let none: Vec<u32> = Vec::new(rt.alloc());
    let (first, second, _) = side_by_side(
        &rt,
        none,
        second,
        &|_place: usize, number: &mut u32| *number = 0,
        &|_place: usize, number: &mut u32| *number = number.wrapping_add(1),
        || (),
    );
    holds(&rt, first.is_empty());
    same(&rt, second.as_slice(), [21, 41].as_slice());
    Ok(())
}

// A thread that takes connections: its ticket, and how many it took.
#[derive(Drop)]
struct Taker<N: Ledger, M: Ledger> {
    ticket: Ticket<N, M>,
    taken: u64,
    ghost parts: { (ticket.handed.parts ≡ 1) × (ticket.refused.parts ≡ 1) },
    ghost counted: { ticket.handed.amount ≡ taken },
}

impl<N: Ledger, M: Ledger> Taker<N, M> {
    // Takes connections until none comes.
    fn take<R: Wait, L: Listener, J: Naming>(&mut self, rt: &R, door: &Mutex<Door<L, N, M, J>>) {
        for _ in rt.forever() {
            let Taker { ticket, taken } = self;
            let Some(_conn) = door.lock(rt).accept(ticket) else {
                break;
            };
            *taken += 1;
        }
    }
}

// Has each take connections in a thread of its own.
fn take_all<
    N: Ledger + Send + Sync,
    M: Ledger + Send + Sync,
    J: Naming + Send + Sync,
    R: Threads + Wait + Sync,
    L: Listener,
>(
    rt: &R,
    alloc: Global,
    takers: Vec<Taker<N, M>>,
    door: &Mutex<Door<L, N, M, J>>,
) -> Vec<Taker<N, M>>
    ensures { vec_len result ≡ vec_len takers }
{
    let (takers, _, _) = side_by_side(
        rt,
        takers,
        Vec::<u64>::new(alloc),
        &|_place: usize, taker: &mut Taker<N, M>| taker.take(rt, door),
        &|_place: usize, _count: &mut u64| {},
        || (),
    );
    takers
}

// How many connections two threads take, and whether the listener has failed.
fn taken_by_two<
    N: Ledger + Send + Sync,
    M: Ledger + Send + Sync,
    J: Naming + Send + Sync,
    R: Threads + Wait + Sync,
    L: Listener + Drop,
>(
    rt: &R,
    alloc: Global,
    listener: L,
    handed: Blank,
    refused: Blank,
) -> Result<(u64, bool), NoMemory>
    requires listener { L.told listener ≡ J.opened }
    requires names { (handed.name ≡ N.name) × (refused.name ≡ M.name) }
    requires parts { (handed.parts ≡ N.parts) × (refused.parts ≡ M.parts) }
    requires two { (handed.parts ≡ 2) × (refused.parts ≡ 2) }
{
    let (door, mut all): (Door<L, N, M, J>, Ticket<N, M>) = Door::open(listener, handed, refused);
    let mut takers = Vec::new(alloc);
    for _i in 0..2usize {
        let ticket = all.split_off();
        takers.push(Taker { ticket, taken: 0 })?;
    }
    let door = Mutex::new(door);
    let mut takers = take_all(rt, alloc, takers, &door);
    let mut total = 0u64;
    while let Some(taker) = takers.pop() {
        let Taker { ticket, taken } = taker;
        all.merge(ticket);
        total = total.wrapping_add(taken);
    }
    Ok((total, door.into_inner().close(&mut all).1))
}

// The same over ledgers of this call.
fn by_two<R: Threads + Wait + Sync, L: Listener + Drop>(
    rt: &R,
    alloc: Global,
    listener: L,
) -> Result<(u64, bool), NoMemory> {
    taken_by_two::<Brand, Brand, Brand, R, L>(rt, alloc, listener, Blank::new(2), Blank::new(2))
}

// A listener of so many scripts, whose calls with these numbers fail.
fn listener(alloc: Global, scripts: usize, fails: &[u64]) -> Result<MemListener, NoMemory> {
    let mut list = Vec::new(alloc);
    for _ in 0..scripts {
        list.push(Bytes::of(alloc, b"script")?)?;
    }
    let fails = Numbers::new(fails.to_vec(alloc)?);
    MemListener::new(alloc, BytesList::new(list), 4, fails)
}

#[test]
fn each_connection_goes_to_one_thread(rt: HostRuntime) -> Result<(), Fail> {
    let plain = listener(rt.alloc(), 100, &[])?;
    same(&rt, by_two(&rt, rt.alloc(), plain)?, (100, false));
    let failing = listener(rt.alloc(), 0, &[0, 1])?;
    same(&rt, by_two(&rt, rt.alloc(), failing)?, (0, true));
    Ok(())
}

#[test]
fn a_clock_and_draws_are_shared(rt: HostRuntime) -> Result<(), Fail> {
    let moments = Numbers::new([1_474_156_800u64].to_vec(rt.alloc())?);
    let clock = Mutex::new(MemClock::new(moments));
    same(&rt, SharedClock::new(&rt, &clock).now(), 1_474_156_800);
    let throttles = Numbers::new([9u64].to_vec(rt.alloc())?);
    let ids = Ids16::new([[3u8; 16]].to_vec(rt.alloc())?);
    let draws = Mutex::new(MemDraws::new(throttles, ids));
    let mut shared = SharedDraws::new(&rt, &draws);
    same(&rt, shared.throttle(), 9);
    same(&rt, shared.id(), [3; 16]);
    Ok(())
}
