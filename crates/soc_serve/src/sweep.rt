//! The last sweep.
ghost use Rattle.std.specs.Prelude.{◌≡◌, Ok, Err};
ghost use Rattle.soc_desk.specs.Basis.{Basis};
ghost use Rattle.soc_desk.specs.State.{State};
ghost use Rattle.soc_book.specs.Books.{SameSetting, StandsFor, disk_of, lent_to, reporter_of};
ghost use Rattle.soc_serve.specs.Sweep.{EndsSweep};
ghost use Rattle.soc_serve.specs.inner.Sweeping.{EndsBoth, EndsDrain, EndsKeep, LeavesMore, LeavesSame, drained, kept};

use soc_book::Book;
use soc_desk::{Refusal, Reply};
use soc_edge::Disk;
use soc_schema::Reporter;

/// Why the last sweep wasn't done.
#[derive(Clone, Copy, Debug, PartialEq, Eq)]
pub enum SweepFault {
    /// The disk failed, or gave back other bytes than it was given.
    Disk,
    /// An allocation was refused.
    NoMemory,
}

/// Keeps the reports that are made, processes what is due and keeps its reports, and processes what has become due
/// meanwhile.
pub(crate) fn sweep<D: Disk, R: Reporter>(book: &mut Book<'_, D, R>) -> Result<(), SweepFault>
    ensures same_disk { lent_to book.new ≡ lent_to book.old }
    ensures ends { (basis : Basis) (state : State) → basis.row_of ≡ R.row_of (reporter_of book.old)
        → basis.digest ≡ R.digest_of (reporter_of book.old)
        → StandsFor basis book.old state → (after : State) × StandsFor basis book.new after
        × EndsSweep basis state (disk_of book.old) result after (disk_of book.new)
        × LeavesMore basis state (disk_of book.old) after (disk_of book.new) }
{
    keep(book)?;
    process_and_keep(book)?;
    drain(book)
}

/// Processes what is due, and keeps the reports also where a crash could not be read.
fn process_and_keep<D: Disk, R: Reporter>(book: &mut Book<'_, D, R>) -> Result<(), SweepFault>
    ensures setting { SameSetting book.old book.new }
    ensures ends { (basis : Basis) (state : State) → basis.row_of ≡ R.row_of (reporter_of book.old)
        → basis.digest ≡ R.digest_of (reporter_of book.old)
        → StandsFor basis book.old state → (after : State) × StandsFor basis book.new after
        × EndsBoth basis state (disk_of book.old) result after (disk_of book.new)
        × LeavesMore basis state (disk_of book.old) after (disk_of book.new) }
{
    let processed = drain(book);
    keep(book)?;
    processed
}

/// Processes what is due.
pub(crate) fn drain<D: Disk, R: Reporter>(book: &mut Book<'_, D, R>) -> Result<(), SweepFault>
    ensures setting { SameSetting book.old book.new }
    ensures ends { (basis : Basis) (state : State) → basis.row_of ≡ R.row_of (reporter_of book.old)
        → StandsFor basis book.old state → (after : State) × StandsFor basis book.new after
        × EndsDrain basis state (disk_of book.old) result after (disk_of book.new)
        × LeavesSame basis state (disk_of book.old) after (disk_of book.new) }
{
    drained(&book.drain())
}

/// Whether all that was due was processed.
fn drained(reply: &Reply) -> Result<(), SweepFault>
    ensures { result ≡ drained reply.now }
{
    match reply {
        Reply::Drained(_) => Ok(()),
        Reply::Refused(Refusal::NoMemory) => Err(SweepFault::NoMemory),
        _ => Err(SweepFault::Disk),
    }
}

/// Keeps the reports for later runs.
fn keep<D: Disk, R: Reporter>(book: &mut Book<'_, D, R>) -> Result<(), SweepFault>
    ensures setting { SameSetting book.old book.new }
    ensures ends { (basis : Basis) (state : State) → basis.row_of ≡ R.row_of (reporter_of book.old)
        → basis.digest ≡ R.digest_of (reporter_of book.old)
        → StandsFor basis book.old state → (after : State) × StandsFor basis book.new after
        × EndsKeep basis state (disk_of book.old) result after (disk_of book.new)
        × LeavesMore basis state (disk_of book.old) after (disk_of book.new) }
{
    kept(&book.keep())
}

/// Whether the reports were kept.
fn kept(reply: &Reply) -> Result<(), SweepFault>
    ensures { result ≡ kept reply.now }
{
    match reply {
        Reply::Kept(_) => Ok(()),
        Reply::Refused(Refusal::NoMemory) => Err(SweepFault::NoMemory),
        _ => Err(SweepFault::Disk),
    }
}
