//! A hall over a book, whose seats leave one log.
ghost use Rattle.std.specs.Prelude.{◌≡◌, ◌≤◌, All, IfOk, length};
ghost use Rattle.soc_desk.specs.Kinds.{NeedsNothing};
ghost use Rattle.soc_hall.specs.Seats.{IsSeatOf, room_of, seats_in, seats_of};

use crate::expect::same;
use soc_base::{NoMemory, Pairs};
use soc_book::{Prepared, Restored};
use soc_desk::{Command, Limits};
use soc_edge::{MemDisk, Numbers};
use soc_hall::{Hall, Logged, Seat, Seats};
use soc_query::Query;
use soc_raw::RawCrash;
use soc_schema::{Bare, Caller, Permission, Permissions, Products};
use soc_turns::SharedBook;
use std::alloc::Global;
use std::snapshot::Snapshot;
use std::sync::Wait;
use std::test::Fail;

type Shared<'a> = SharedBook<'a, MemDisk, Bare>;

const LIMITS: Limits = Limits {
    journal_bytes: 4000,
    crashes: 2,
};

// The record of a crash of Firefox, which is due at once.
const FIREFOX: &[u8] =
    b"de1bb258-cbbf-4589-a673-34f800160918\x00\xd9\xddW\x00\x00\x00\x00\x00\x00\x00\x00\x00\x00\x00\x00\x0a\x00\x00\x00accept_all\x01\x00\x00\x00\x0b\x00\x00\x00ProductName\x07\x00\x00\x00Firefox\x00\x00\x00\x00";

// The book over an empty disk.
fn opened<'a>(alloc: Global, disk: &'a mut MemDisk) -> Result<Shared<'a>, Fail> {
    let opened = Snapshot::of(&*disk);
    let Ok(restored) = Restored::read(alloc, disk, &Bare, LIMITS) else {
        return Err(Fail::from("the journal wasn't opened"));
    };
    Ok(SharedBook::over(alloc, disk, &Bare, LIMITS, restored, opened))
}

// Asks a command in one turn. The number is the length of the log after it.
fn ask<'a, R: Wait>(
    rt: &R,
    alloc: Global,
    hall: &Hall<Shared<'a>>,
    seat: Seat<Shared<'a>>,
    command: Command,
) -> (Seat<Shared<'a>>, u64)
    requires seat { IsSeatOf hall.now seat }
    requires nothing { NeedsNothing command }
    ensures { IsSeatOf hall.now result.0 }
{
    let prepared = Prepared::new(alloc, command);
    let (seat, receipt) = hall.ask(rt, seat, prepared);
    (seat, receipt.front)
}

// Who may run turns, and stop the desk.
fn operator() -> Caller {
    let mut permissions = Permissions::public();
    permissions.add(Permission::Operate);
    Caller {
        permissions,
        products: Products::All,
    }
}

// Everything that such a caller may see.
fn all(alloc: Global) -> Result<Query, Fail> {
    match Query::read(alloc, &Pairs::new(alloc), operator()) {
        Ok(query) => Ok(query),
        Err(_) => Err(Fail::from("no query")),
    }
}

// A hall of two seats over a book.
fn hall_of_two<'a>(
    alloc: Global,
    book: Shared<'a>,
) -> Result<(Hall<Shared<'a>>, Seats<Shared<'a>>), NoMemory>
    ensures count { IfOk result (λ made. (seats_of made.0 ≡ 2) × (length (seats_in made.1) ≡ 2)
        × (2 ≤ room_of made.1)) }
    ensures each { IfOk result (λ made. All (λ seat. IsSeatOf made.0 seat) (seats_in made.1)) }
{
    Hall::new(alloc, book, 2)
}

// Two seats ask, of which the first keeps a crash, makes its report and searches, and the second stops: the lengths of the
// log after these turns, and of the log that is left.
fn ask_by_two<'a, R: Wait>(
    rt: &R,
    alloc: Global,
    book: Shared<'a>,
    raw: RawCrash,
    query: Query,
) -> Result<([u64; 4], u64), NoMemory> {
    let (closing, mut seats) = hall_of_two(alloc, book)?;
    let hall = &closing;
    let Some(a) = seats.pop() else { unreachable!() };
    let Some(b) = seats.pop() else { unreachable!() };
    let (a, kept) = ask(rt, alloc, hall, a, Command::Submit { raw });
    let (a, made) = ask(rt, alloc, hall, a, Command::Turn { caller: operator() });
    let (a, searched) = ask(rt, alloc, hall, a, Command::Search { query });
    let (b, stopped) = ask(rt, alloc, hall, b, Command::Stop { caller: operator() });
    let (a, b) = hall.meet(a, b);
    seats.push(b);
    seats.push(a);
    let book = closing.close(seats);
    Ok(([kept, made, searched, stopped], book.front()))
}

#[test]
fn two_seats_meet_and_leave_one_log(rt: HostRuntime) -> Result<(), Fail> {
    let alloc = rt.alloc();
    let mut disk = MemDisk::new(alloc, 8000, 900, Numbers::new(Vec::new(alloc)))?;
    let book = opened(alloc, &mut disk)?;
    let raw = RawCrash::decode(alloc, FIREFOX)?;
    let (fronts, left) = ask_by_two(&rt, alloc, book, raw, all(alloc)?)?;
    same(&rt, fronts, [1, 2, 2, 3]);
    same(&rt, left, 3);
    Ok(())
}
