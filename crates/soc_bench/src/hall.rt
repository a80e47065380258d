//! Turns of a state that only counts them, by threads with a seat each.
ghost use Rattle.std.specs.Prelude.{◌≡◌, ◌+◌, ◌%◌, ◌^◌, ◌<◌, ◌≤◌, [], length, All, IfOk};
ghost use Rattle.soc_hall.specs.Seats.{seats_in, IsSeatOf};

use crate::fault::Fault;
use crate::numbers::number_up_to;
use soc_base::NoMemory;
use soc_hall::{Hall, Logged, Seat, Seats};
use std::alloc::Global;
use std::rt::Clock;
use std::sync::Wait;
use std::thread;
use std::thread::Threads;
use std::time::Instant;

/// The most threads.
const MOST_THREADS: u64 = 64;

/// The most turns of a thread.
const MOST_TURNS: u64 = 100_000_000;

/// A state whose turns add nothing to its log.
#[derive(Drop)]
struct Counter {
    turns: u64,
}

impl Logged for Counter {
    type Command = ();

    type Reply = ();

    type Change = ();

    type Basis = ();

    ghost log_of = { λ state. [] };

    ghost basis_of = { λ state. tt };

    ghost asks = { λ before command reply after. after.turns ≡ (before.turns + 1) % 2 ^ 64 };

    ghost answers = { λ basis log command reply after. after ≡ log };

    ghost may_ask = { λ basis log command. Unit {0} };

    fn turn(&mut self, _command: ()) {
        self.turns = self.turns.wrapping_add(1);
    }

    fn front(&self) -> u64 {
        0
    }

    ghost may_still = { λ basis log more command may. may };
}

/// Takes so many turns in each of so many threads.
pub fn run<R: Clock + Print + Eprint + AllocGlobal + Threads + Wait + Sync>(
    rt: &R,
    words: &[String],
) -> Result<(), Fault> {
    let [threads, turns] = words else {
        return Err(Fault::Words);
    };
    let threads = number_up_to(threads, MOST_THREADS)?;
    let turns = number_up_to(turns, MOST_TURNS)?;
    if threads == 0 {
        return Err(Fault::Words);
    }
    let start = Instant::now(rt)?;
    let taken = turns_of(rt, rt.alloc(), threads as u32, turns)?;
    let rate = u128::from(taken) * 1_000_000 / start.elapsed(rt)?.as_micros().max(1);
    println!(rt; "hall: {threads} threads, {taken} turns")?;
    eprintln!(rt; "hall: {rate} turns/s")?;
    Ok(())
}

/// How many turns the threads took, together.
fn turns_of<R: Threads + Wait + Sync>(
    rt: &R,
    alloc: Global,
    threads: u32,
    turns: u64,
) -> Result<u64, NoMemory>
    requires { (0 < threads) × (threads ≤ 64) }
{
    let (hall, seats) = Hall::new(alloc, Counter { turns: 0 }, threads)?;
    let hall = &hall;
    let seats = listed(alloc, hall, seats)?;
    let taken = thread::map_vec(
        rt,
        seats,
        &|seat: Seat<Counter>| -> u64
            requires { IsSeatOf hall.now seat }
        { take_turns(rt, hall, seat, turns) },
    )?;
    Ok(
        taken
            .iter()
            .fold(0, |sum: u64, count| sum.wrapping_add(*count)),
    )
}

/// The seats, in a list of their own.
fn listed(
    alloc: Global,
    hall: &Hall<Counter>,
    mut seats: Seats<Counter>,
) -> Result<Vec<Seat<Counter>>, NoMemory>
    requires { All (λ seat. IsSeatOf hall.now seat) (seats_in seats) }
    ensures { IfOk result (λ list. All (λ seat. IsSeatOf hall.now seat) list.items) }
{
    let mut list = Vec::new(alloc);
    while let Some(seat) = seats.pop() {
        list.push(seat)?;
    }
    Ok(list)
}

/// How many turns the thread took.
fn take_turns<R: Wait>(rt: &R, hall: &Hall<Counter>, mut seat: Seat<Counter>, turns: u64) -> u64
    requires { IsSeatOf hall.now seat }
    ensures { result ≡ turns }
{
    let mut taken = 0;
    while taken < turns {
        let (next, _) = hall.ask(rt, seat, ());
        seat = next;
        taken += 1;
    }
    taken
}
