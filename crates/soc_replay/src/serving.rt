//! One session over the desk that a disk's journal opens, and the reports after it.
ghost use Rattle.std.specs.Prelude.{◌≡◌, is_some};
ghost use Rattle.soc_edge.specs.Ahead.{outlook};
ghost use Rattle.soc_edge.specs.Disk.{DiskFailed, GoesOn};
ghost use Rattle.soc_edge.specs.Told.{HasCause, NeverFall};
ghost use Rattle.soc_desk.specs.Basis.{Basis};
ghost use Rattle.soc_desk.specs.State.{State};
ghost use Rattle.soc_book.specs.Books.{StandsFor, disk_of, lent_to, reporter_of};
ghost use Rattle.soc_replay.specs.Ends.{status_of};
ghost use Rattle.soc_edge.specs.World.{surroundings};
ghost use Rattle.soc_replay.specs.Replay.{RunsDesk};
ghost use Rattle.soc_replay.specs.Serving.{keep_reply, keeps_reports, service};
ghost use Rattle.soc_replay.specs.inner.Serving.{KeepsDisk};

use crate::ending::{Keeping, RunEnd, keeps_reports};
use crate::opening::open;
use crate::setup::Setup;
use soc_book::Book;
use soc_desk::{Refusal, Reply};
use soc_edge::{Clock, Disk, Draws, Sink, Source};
use soc_http::{Buffer, Routes};
use soc_schema::Reporter;
use soc_session::{SessionEnd, Setting, Stacks, session};
use std::alloc::Global;

/// By what a desk is served.
#[derive(Drop)]
pub(crate) struct Purpose<'s, R, S> {
    pub(crate) setup: &'s Setup,
    pub(crate) reporter: &'s R,
    pub(crate) stacks: &'s S,
}

/// Opens the desk whose log the disk's journal keeps, answers the messages of the streams' source on their sink, and then
/// keeps the reports that were made.
pub(crate) fn serve<R: Reporter, S: Stacks, X: Source + Sink, D: Disk, C: Clock, W: Draws>(
    alloc: Global,
    purpose: &Purpose<'_, R, S>,
    streams: &mut X,
    disk: &mut D,
    clock: &mut C,
    draws: &mut W,
) -> RunEnd
    ensures runs { RunsDesk
        (service (R.row_of purpose.now.reporter.now) (R.digest_of purpose.now.reporter.now)
        (S.stack_of purpose.now.stacks.now) purpose.now.setup.now)
        (surroundings (X.told streams.old) (D.state disk.old) (outlook (C.told clock.old) (W.told draws.old)))
        (surroundings (X.told streams.new) (D.state disk.new) (outlook (C.told clock.new) (W.told draws.new)))
        result }
    ensures goes_on { GoesOn (D.state disk.old) (D.state disk.new) }
    ensures never_fall { NeverFall (X.told streams.old) (X.told streams.new) }
    ensures cause { HasCause (status_of result ≡ 6) (status_of result ≡ 7) (X.told streams.old)
        (X.told streams.new) }
    ensures disk_cause { status_of result ≡ 4 → DiskFailed (D.state disk.old) (D.state disk.new) }
{
    let reporter = purpose.reporter;
    let setup = purpose.setup;
    let Ok(routes) = Routes::new(alloc) else {
        return RunEnd::NoMemory;
    };
    let Ok(mut buffer) = Buffer::new(alloc) else {
        return RunEnd::NoMemory;
    };
    let restored = match open(alloc, reporter, setup.limits, streams, disk) {
        Ok(restored) => restored,
        Err(end) => return end,
    };
    let mut book = Book::over(alloc, disk, reporter, setup.limits, restored);
    let setting = Setting {
        alloc,
        rules: &setup.rules,
        routes: &routes,
        stacks: purpose.stacks,
    };
    let end = session(&setting, &mut book, streams, &mut buffer, clock, draws);
    let keeping = keep_after(end, &mut book);
    let _disk = book.into_disk();
    RunEnd::Served(end, keeping)
}

/// Keeps the reports of a run for later ones, where the session's end is one after which they are kept.
fn keep_after<D: Disk, R: Reporter>(end: SessionEnd, book: &mut Book<'_, D, R>) -> Keeping
    ensures same_disk { lent_to book.new ≡ lent_to book.old }
    ensures where_ended { is_some (keep_reply result) ≡ keeps_reports end }
    ensures keeps { (basis : Basis) (state : State)
        → basis.row_of ≡ R.row_of (reporter_of book.old)
        → basis.digest ≡ R.digest_of (reporter_of book.old)
        → StandsFor basis book.old state
        → (kept : State) × KeepsDisk basis state (disk_of book.old)
        (keep_reply result) kept (disk_of book.new) }
{
    if !keeps_reports(end) {
        return Keeping::Nothing;
    }
    match book.keep() {
        Reply::Kept(count) => Keeping::Done(count),
        Reply::Refused(Refusal::NoMemory) => Keeping::NoMemory,
        _ => Keeping::Fault,
    }
}
