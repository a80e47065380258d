//! What a processor does with one crash.
ghost use Rattle.std.specs.Prelude.{◌≡◌, IfSome, MatchOption, MatchResult};
ghost use Rattle.soc_hall.specs.Seats.{IsSeatOf, known_of};
ghost use Rattle.soc_desk.specs.declared.desk.Command.TheVariants.{Finish as asks_finish};
ghost use Rattle.soc_service.specs.Turns.{MayTurn};
ghost use Rattle.soc_service.specs.Works.{Fetches, Finishes, LeavesOff, WorksOn};
ghost use Rattle.soc_service.specs.inner.Outcomes.{fetched_as, finished_as, gives};

use crate::gate::{Gate, Point};
use crate::sharing::SharedDesk;
use crate::turn::take_turn;
use soc_desk::{Command, Refusal, Reply};
use soc_hall::{Hall, Seat};
use soc_raw::{CrashId, RawCrash};
use soc_schema::{Processed, Reporter};
use std::alloc::Global;
use std::sync::Wait;

/// What became of a crash that a processor took.
#[derive(Clone, Copy, Debug, PartialEq, Eq)]
pub enum Outcome {
    /// It was given its row.
    Made,
    /// It wasn't due, or isn't due any longer.
    Stale,
    /// It couldn't be read.
    Missed,
}

// The raw crash that a fetch gave, or what became of the crash where it gave none.
fn given(reply: Reply) -> Result<RawCrash, Option<Outcome>>
    ensures { MatchResult result (λ raw. reply ≡ gives raw)
        (λ outcome. outcome ≡ fetched_as reply) }
{
    match reply {
        Reply::Fetched(Some(raw)) => Ok(raw),
        Reply::Fetched(None) | Reply::Refused(Refusal::NoCrash) => Err(Some(Outcome::Stale)),
        Reply::Refused(Refusal::StoreFault | Refusal::Altered { .. }) => Err(Some(Outcome::Missed)),
        _ => Err(None),
    }
}

// What a finish says of its crash.
fn finished_as(reply: &Reply) -> Option<Outcome>
    ensures { result ≡ finished_as reply.now }
{
    match reply {
        Reply::Finished { changed: true } => Some(Outcome::Made),
        Reply::Finished { changed: false } => Some(Outcome::Stale),
        _ => None,
    }
}

// Asks for a crash.
fn fetch<T: SharedDesk, W: Wait>(
    rt: &W,
    alloc: Global,
    hall: &Hall<T>,
    seat: Seat<T>,
    id: CrashId,
) -> (Seat<T>, Reply)
    requires { IsSeatOf hall.now seat }
    ensures seat { IsSeatOf hall.now result.0 }
    ensures fetch { Fetches T.Logged T.command_of (known_of seat) id result.1 (known_of result.0) }
{
    let (seat, answer) = take_turn(rt, alloc, hall, seat, Command::Fetch { id });
    (seat, answer.reply.reply)
}

// Gives a crash its row.
fn finish<T: SharedDesk, W: Wait>(
    rt: &W,
    alloc: Global,
    hall: &Hall<T>,
    seat: Seat<T>,
    processed: Processed,
) -> (Seat<T>, Reply)
    requires seat { IsSeatOf hall.now seat }
    requires may { MayTurn T.desk_of (known_of seat) (asks_finish processed) }
    ensures seat { IsSeatOf hall.now result.0 }
    ensures finish { Finishes T.Logged T.command_of (known_of seat) processed.crash result.1
        (known_of result.0) }
{
    let (seat, answer) = take_turn(rt, alloc, hall, seat, Command::Finish { processed });
    (seat, answer.reply.reply)
}

/// Makes the report of a crash by the desk's own reporter. `None` where memory was wanting.
pub(crate) fn process<T: SharedDesk, R: Reporter, G: Gate, W: Wait>(
    rt: &W,
    alloc: Global,
    hall: &Hall<T>,
    seat: Seat<T>,
    reporter: &R,
    gate: &G,
    id: CrashId,
) -> (Seat<T>, Option<Outcome>)
    requires seat { IsSeatOf hall.now seat }
    requires reporter { IfSome (known_of seat).basis
        (λ basis. (T.desk_of basis).row_of ≡ R.row_of reporter.now) }
    ensures seat { IsSeatOf hall.now result.0 }
    ensures basis { (known_of result.0).basis ≡ (known_of seat).basis }
    ensures works { MatchOption result.1
        (LeavesOff T.Logged T.command_of (known_of seat) id (known_of result.0))
        (λ outcome. WorksOn T.Logged T.command_of (known_of seat) id outcome (known_of result.0)) }
{
    let (seat, reply) = fetch(rt, alloc, hall, seat, id);
    let raw = match given(reply) {
        Ok(raw) => raw,
        Err(outcome) => return (seat, outcome),
    };
    raw.is_crash();
    let Ok(processed) = Processed::make(alloc, reporter, raw) else {
        return (seat, None);
    };
    let (seat, reply) = finish(rt, alloc, hall, seat, processed);
    gate.at(Point::Finished);
    (seat, finished_as(&reply))
}
