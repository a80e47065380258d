//! One turn in a hall.
ghost use Rattle.std.specs.Prelude.{◌≡◌};
ghost use Rattle.soc_hall.specs.Asked.{Asks};
ghost use Rattle.soc_hall.specs.Seats.{IsSeatOf, known_of};
ghost use Rattle.soc_service.specs.Turns.{MayTurn};

use crate::sharing::SharedDesk;
use soc_desk::{Command, Receipt};
use soc_hall::{Hall, HallReceipt, Seat};
use std::alloc::Global;
use std::sync::Wait;

/// Asks a command in one turn. What it writes is prepared before.
pub(crate) fn take_turn<T: SharedDesk, W: Wait>(
    rt: &W,
    alloc: Global,
    hall: &Hall<T>,
    seat: Seat<T>,
    command: Command,
) -> (Seat<T>, HallReceipt<Receipt>)
    requires seat { IsSeatOf hall.now seat }
    requires may { MayTurn T.desk_of (known_of seat) command }
    ensures seat { IsSeatOf hall.now result.0 }
    ensures turn { (prepared : _) × (T.command_of prepared ≡ command)
        × Asks T.log_of T.basis_of T.asks T.answers (known_of seat) prepared result.1
        (known_of result.0) }
{
    let prepared = T::prepare(alloc, command);
    hall.ask(rt, seat, prepared)
}
