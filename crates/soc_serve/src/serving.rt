//! The service over the desk that a disk's journal opens.
ghost use Rattle.std.specs.Prelude.{◌≡◌, ◌⊎◌, ◌+◌, ◌≤◌, IsOkAnd, false, true};
ghost use Rattle.soc_collect.specs.Tallies.{nothing_served};
ghost use Rattle.soc_edge.specs.Ahead.{Outlook, outlook};
ghost use Rattle.soc_edge.specs.Faults.{Rose};
ghost use Rattle.soc_edge.specs.Told.{OnlyWrites, WriteFailed};
ghost use Rattle.soc_desk.specs.Basis.{Basis};
ghost use Rattle.soc_desk.specs.State.{State};
ghost use Rattle.soc_book.specs.Books.{StandsFor, disk_of, lent_to, reporter_of};
ghost use Rattle.soc_edge.specs.World.{surroundings};
ghost use Rattle.soc_replay.specs.Serving.{service};
ghost use Rattle.soc_serve.specs.Ends.{status_of};
ghost use Rattle.soc_serve.specs.inner.Hosting.{IsCrew};
ghost use Rattle.soc_serve.specs.inner.Serving.{ClosesBook, ServesDesk};

use crate::ending::HostEnd;
use crate::lines::tell_counts;
use crate::sweep::{SweepFault, sweep};
use soc_base::NoMemory;
use soc_book::Book;
use soc_collect::Tally;
use soc_crew::{Crew, CrewEnd, CrewSetting, serve_together};
use soc_edge::{Clock, Disk, Draws, Sink, Telling};
use soc_http::Routes;
use soc_listen::Listener;
use soc_pool::RingEnd;
use soc_replay::{RunEnd, Setup, open};
use soc_schema::Reporter;
use soc_service::Gate;
use soc_session::{Setting, Stacks};
use soc_turns::SharedBook;
use std::alloc::Global;
use std::snapshot::Snapshot;
use std::sync::Wait;
use std::thread::Threads;

/// Who serves a listener.
#[derive(Drop)]
pub(crate) struct Site<'s, R, G> {
    pub(crate) rt: &'s R,
    pub(crate) alloc: Global,
    pub(crate) crew: Crew,
    pub(crate) gate: &'s G,
}

/// Who serves a listener, and by what.
#[derive(Drop)]
pub(crate) struct Purpose<'s, R, G, Q, S> {
    pub(crate) site: &'s Site<'s, R, G>,
    pub(crate) setup: &'s Setup,
    pub(crate) reporter: &'s Q,
    pub(crate) stacks: &'s S,
}

/// Opens the desk whose log the disk's journal keeps, has a crew answer the messages of the listener's connections, and then
/// sweeps up and writes the lines.
pub(crate) fn serve<
    R: Threads + Wait + Sync,
    Q: Reporter + Sync,
    S: Stacks + Send + Sync,
    L: Listener,
    K: Sink,
    D: Telling + Send,
    C: Clock + Send,
    W: Draws + Send,
    G: Gate + Sync,
>(
    purpose: &Purpose<'_, R, G, Q, S>,
    listener: L,
    output: &mut K,
    disk: &mut D,
    clock: &mut C,
    draws: &mut W,
    served: &mut Tally<L::Link>,
) -> (HostEnd, L, Option<RingEnd>)
    requires crew { IsCrew purpose.now.site.now.crew }
    requires served { served.old ≡ nothing_served }
    ensures serves { ServesDesk
        (service (Q.row_of purpose.now.reporter.now) (Q.digest_of purpose.now.reporter.now)
        (S.stack_of purpose.now.stacks.now) purpose.now.setup.now) purpose.now.site.now.crew
        served.new.kept result.2
        (surroundings (K.told output.old) (D.state disk.old)
        (outlook (C.told clock.old) (W.told draws.old)))
        (surroundings (K.told output.new) (D.state disk.new)
        (outlook (C.told clock.new) (W.told draws.new))) result.0 }
    ensures handed { (L.told result.1).handed ≡ (L.told listener).handed + served.new.connections }
    ensures over { status_of result.0 ≡ 0
        → (served.new.stopped ≡ true) ⊎ ((L.told result.1).ended ≡ true) }
    ensures only { OnlyWrites (K.told output.old) (K.told output.new) }
    ensures no_fewer { (L.told listener).faults ≤ (L.told result.1).faults }
    ensures listener_cause { status_of result.0 ≡ 6
        → Rose (L.told listener).faults (L.told result.1).faults }
    ensures cause { status_of result.0 ≡ 7 → WriteFailed (K.told output.old) (K.told output.new) }
{
    let alloc = purpose.site.alloc;
    let reporter = purpose.reporter;
    let setup = purpose.setup;
    let Ok(routes) = Routes::new(alloc) else {
        return (HostEnd::Before(RunEnd::NoMemory), listener, None);
    };
    let opened = Snapshot::of(&*disk);
    let restored = match open(alloc, reporter, setup.limits, output, disk) {
        Ok(restored) => restored,
        Err(end) => return (HostEnd::Before(end), listener, None),
    };
    let book = SharedBook::over(alloc, disk, reporter, setup.limits, restored, opened);
    let setting = CrewSetting {
        crew: purpose.site.crew,
        session: Setting {
            alloc,
            rules: &setup.rules,
            routes: &routes,
            stacks: purpose.stacks,
        },
        reporter,
        gate: purpose.site.gate,
    };
    let CrewEnd {
        desk: book,
        listener,
        failed,
        served: counted,
        jobs,
    } = serve_together(purpose.site.rt, setting, book, listener, clock, draws);
    *served = counted;
    let mut book = book.into_book();
    let end = close(alloc, &mut book, output, failed);
    let _disk = book.into_disk();
    (end, listener, jobs)
}

/// Sweeps up, and writes the lines. Where memory was wanting before anything was served, nothing is swept.
fn close<R: Reporter, K: Sink, D: Disk>(
    alloc: Global,
    book: &mut Book<'_, D, R>,
    output: &mut K,
    failed: Result<bool, NoMemory>,
) -> HostEnd
    ensures same_disk { lent_to book.new ≡ lent_to book.old }
    ensures closes { (basis : Basis) (state : State)
        → basis.row_of ≡ R.row_of (reporter_of book.old)
        → basis.digest ≡ R.digest_of (reporter_of book.old)
        → StandsFor basis book.old state
        → (after : State) × StandsFor basis book.new after
        × ((early late : Outlook) → ClosesBook
        (surroundings (K.told output.old) (disk_of book.old) early)
        (surroundings (K.told output.new) (disk_of book.new) late) result basis state after) }
    ensures only { OnlyWrites (K.told output.old) (K.told output.new) }
    ensures failed { status_of result ≡ 6 → IsOkAnd failed (λ failed. failed ≡ true) }
    ensures done { status_of result ≡ 0 → IsOkAnd failed (λ failed. failed ≡ false) }
    ensures cause { status_of result ≡ 7 → WriteFailed (K.told output.old) (K.told output.new) }
{
    let Ok(failed) = failed else {
        return HostEnd::Swept(SweepFault::NoMemory);
    };
    if let Err(fault) = sweep(book) {
        return HostEnd::Swept(fault);
    }
    if let Err(fault) = tell_counts(alloc, output, book.crashes(), book.reports()) {
        return HostEnd::Lines(fault);
    }
    if failed {
        HostEnd::Failed
    } else {
        HostEnd::Done
    }
}
