ghost use Rattle.std.specs.Prelude.{◌≡◌, ◌+◌, ◌*◌, ◌<◌, ◌≤◌, [], ◌∷◌, ◌++◌, length, All, Some, IfOk, MatchBool};
ghost use Rattle.soc_hall.specs.Seats.{known_of, seats_in, room_of, IsSeatOf};

use super::*;
use soc_base::NoMemory;
use std::alloc::Global;
use std::rt::Clock;
use std::sync::Wait;
use std::test::*;
use std::thread;
use std::thread::Threads;
use std::time::{CpuClock, Duration, Instant};

const BOUND: u64 = 1_000_000;

// How many numbers apart the threads begin.
const APART: u64 = 10_000;

// A list of numbers below a bound, each of which takes a nap to write down.
#[derive(Drop)]
struct Numbers<R> {
    rt: R,
    nap: Duration,
    list: Vec<u64>,
    bound: u64,
}

impl<R: Clock> Logged for Numbers<R> {
    type Command = u64;

    type Reply = bool;

    type Change = u64;

    type Basis = u64;

    ghost log_of = { λ s. s.list.items };

    ghost basis_of = { λ s. s.bound };

    ghost asks = { λ s c r t. MatchBool r (t.list.items ≡ s.list.items ++ c ∷ [])
        (t.list.items ≡ s.list.items) };

    ghost answers = { λ b xs c r ys. MatchBool r (ys ≡ xs ++ c ∷ []) (ys ≡ xs) };

    ghost may_ask = { λ b xs c. c < b };

    fn turn(&mut self, command: u64) -> bool {
        if !self.nap.is_zero() {
            thread::sleep(&self.rt, self.nap);
        }
        if self.list.reserve(1).is_err() {
            return false;
        }
        self.list.push_reserved(command);
        true
    }

    fn front(&self) -> u64 {
        self.list.len() as u64
    }

    ghost may_still = { λ b xs ys c h. h };
}

// A thread's seat, the first number that it asks, and where each of its turns began.
#[derive(Drop)]
struct Asker<S> {
    seat: S,
    from: u64,
    starts: Vec<u64>,
}

// Asks as many numbers in turn.
fn ask_all<R: Clock + Wait>(
    rt: &R,
    hall: &Hall<Numbers<R>>,
    asker: Asker<Seat<Numbers<R>>>,
    count: u64,
) -> Asker<Seat<Numbers<R>>>
    requires seat { IsSeatOf hall.now asker.seat × ((known_of asker.seat).basis ≡ Some BOUND) }
    requires below { asker.from + count ≤ BOUND }
    ensures { IsSeatOf hall.now result.seat }
{
    let Asker {
        mut seat,
        from,
        mut starts,
    } = asker;
    for i in 0..count {
        let (next, receipt) = hall.ask(rt, seat, from + i);
        seat = next;
        if receipt.reply && receipt.start < receipt.front {
            let _ = starts.push(receipt.start);
        }
    }
    Asker { seat, from, starts }
}

// As many askers as there are seats.
fn askers_of<R: Clock>(
    alloc: Global,
    hall: &Hall<Numbers<R>>,
    seats: &mut Seats<Numbers<R>>,
) -> Result<Vec<Asker<Seat<Numbers<R>>>>, NoMemory>
    requires seats { All (λ seat. IsSeatOf hall.now seat × ((known_of seat).basis ≡ Some BOUND))
        (seats_in seats.old) }
    requires few { length (seats_in seats.old) ≤ 64 }
    ensures none_left { IfOk result
        (λ askers. (seats_in seats.new ≡ []) × (room_of seats.new ≡ room_of seats.old)) }
    ensures count { IfOk result (λ askers. length askers.items ≡ length (seats_in seats.old)) }
    ensures each { IfOk result (λ askers.
        All (λ asker. IsSeatOf hall.now asker.seat × ((known_of asker.seat).basis ≡ Some BOUND)
        × (asker.from + APART ≤ BOUND)) askers.items) }
{
    let mut askers = Vec::new(alloc);
    while let Some(seat) = seats.pop() {
        let from = askers.len() as u64 * APART;
        askers.push(Asker {
            seat,
            from,
            starts: Vec::new(alloc),
        })?;
    }
    Ok(askers)
}

// The seats go back, and what the askers noted is kept.
fn seats_of_askers<R: Clock>(
    alloc: Global,
    hall: &Hall<Numbers<R>>,
    seats: &mut Seats<Numbers<R>>,
    askers: Vec<Asker<Seat<Numbers<R>>>>,
) -> Result<Vec<(u64, Vec<u64>)>, NoMemory>
    requires seats { (seats_in seats.old ≡ []) × (length askers.items ≤ room_of seats.old) }
    requires each { All (λ asker. IsSeatOf hall.now asker.seat) askers.items }
    ensures count { IfOk result (λ notes. length (seats_in seats.new) ≡ length askers.items) }
    ensures seats { IfOk result (λ notes.
        All (λ seat. IsSeatOf hall.now seat) (seats_in seats.new)) }
{
    let mut notes = Vec::new(alloc);
    for asker in askers {
        let Asker { seat, from, starts } = asker;
        seats.push(seat);
        notes.push((from, starts))?;
    }
    Ok(notes)
}

// What so many threads leave that ask as many numbers each: the numbers, and for each thread its first number and where its turns began.
fn run<R: Clock + Threads + Wait + Clone + Drop + Send + Sync>(
    rt: &R,
    alloc: Global,
    numbers: Numbers<R>,
    threads: u32,
    count: u64,
) -> Result<(Numbers<R>, Vec<(u64, Vec<u64>)>), NoMemory>
    requires bound { numbers.bound ≡ BOUND }
    requires threads { (0 < threads) × (threads ≤ 64) }
    requires count { count ≤ APART }
{
    let (closing, mut seats) = Hall::new(alloc, numbers, threads)?;
    let hall = &closing;
    let askers = askers_of(alloc, hall, &mut seats)?;
    let askers = thread::map_vec(
        rt,
        askers,
        &|asker: Asker<Seat<Numbers<R>>>| -> Asker<Seat<Numbers<R>>>
            requires { IsSeatOf hall.now asker.seat × ((known_of asker.seat).basis ≡ Some BOUND)
                × (asker.from + APART ≤ BOUND) × (count ≤ APART) }
            ensures { IsSeatOf hall.entry.now result.seat }
        { ask_all(rt, hall, asker, count) },
    )?;
    let notes = seats_of_askers(alloc, hall, &mut seats, askers)?;
    Ok((closing.close(seats), notes))
}

// Two seats ask and meet, and the first asks again: where the turns began and ended, and what is left.
fn meet_and_close<R: Clock + Wait + Drop>(
    rt: &R,
    alloc: Global,
    numbers: Numbers<R>,
) -> Result<([(u64, u64); 3], Numbers<R>), NoMemory>
    requires { numbers.bound ≡ BOUND }
{
    let (closing, mut seats) = Hall::new(alloc, numbers, 2)?;
    let hall = &closing;
    let Some(a) = seats.pop() else { unreachable!() };
    let Some(b) = seats.pop() else { unreachable!() };
    let (a, first) = hall.ask(rt, a, 7);
    let (b, second) = hall.ask(rt, b, 8);
    let (a, b) = hall.meet(a, b);
    let (a, third) = hall.ask(rt, a, 9);
    seats.push(b);
    seats.push(a);
    let places = [
        (first.start, first.front),
        (second.start, second.front),
        (third.start, third.front),
    ];
    Ok((places, closing.close(seats)))
}

fn numbers_of<R: Clock + Clone + Drop>(
    rt: &R,
    alloc: Global,
    nap: Duration,
) -> Result<Numbers<R>, Fail>
    ensures { IfOk result (λ numbers. numbers.bound ≡ BOUND) }
{
    Ok(Numbers {
        rt: rt.clone()?,
        nap,
        list: Vec::new(alloc),
        bound: BOUND,
    })
}

// The log is the interleaving that the receipts tell.
fn interleaves(list: &[u64], notes: &[(u64, Vec<u64>)]) -> bool {
    let told: usize = notes
        .iter()
        .map(|note| note.1.len())
        .fold(0, |sum: usize, n| sum.wrapping_add(n));
    told == list.len()
        && notes.iter().all(|note| {
            note.1.iter().enumerate().all(|(i, at)| list.get(*at as usize).copied()
                == note.0.checked_add(i as u64))
        })
}

#[test]
fn threads_interleave(rt: HostRuntime) -> Result<(), Fail> {
    for threads in [1, 2, 4, 8] {
        let numbers = numbers_of(&rt, rt.alloc(), Duration::ZERO)?;
        let (numbers, notes) = run(&rt, rt.alloc(), numbers, threads, 10_000)?;
        assert_eq!(rt; numbers.list.len() as u64, threads as u64 * 10_000);
        assert!(rt; interleaves(numbers.list.as_slice(), notes.as_slice()));
    }
    Ok(())
}

#[test]
fn two_seats_meet(rt: HostRuntime) -> Result<(), Fail> {
    let numbers = numbers_of(&rt, rt.alloc(), Duration::ZERO)?;
    let (places, numbers) = meet_and_close(&rt, rt.alloc(), numbers)?;
    assert_eq!(rt; places, [(0, 1), (1, 2), (2, 3)]);
    assert_eq!(rt; numbers.list.as_slice(), [7, 8, 9].as_slice());
    Ok(())
}

// Eight threads whose turns take a millisecond: all return, and the processors idle.
#[test]
fn long_turns_are_slept_through(rt: HostRuntime) -> Result<(), Fail> {
    let numbers = numbers_of(&rt, rt.alloc(), Duration::from_millis(1))?;
    let start = Instant::now(&rt)?;
    let (numbers, notes) = run(&rt, rt.alloc(), numbers, 8, 100)?;
    let passed = start.elapsed(&rt)?;
    assert!(rt; interleaves(numbers.list.as_slice(), notes.as_slice()));
    assert_eq!(rt; numbers.list.len(), 800);
    let used = rt.process_cpu_time()?;
    assert!(rt; used < passed / 2);
    Ok(())
}
