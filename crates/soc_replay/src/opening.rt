//! Opening a journal, and telling why it is refused.
ghost use Rattle.std.specs.Prelude.{◌≡◌, IfErr, IfOk, IfSome, None, OnErr};
ghost use Rattle.soc_edge.specs.Ahead.{Outlook};
ghost use Rattle.soc_edge.specs.Disk.{DiskFailed, GoesOn, LeavesOnly};
ghost use Rattle.soc_edge.specs.Told.{OnlyWrites, WriteFailed};
ghost use Rattle.soc_vault.specs.Openings.{OpeningLeaves};
ghost use Rattle.soc_book.specs.Openings.{IsSettled, Restores};
ghost use Rattle.soc_replay.specs.Ends.{status_of};
ghost use Rattle.soc_replay.specs.Opening.{OpensNot};
ghost use Rattle.soc_edge.specs.World.{surroundings};
ghost use Rattle.soc_replay.specs.inner.Refusals.{RefusesJournalBy};

use crate::ending::RunEnd;
use crate::refusal::{FileRefusal, Line, refuse};
use soc_book::Restored;
use soc_desk::Limits;
use soc_edge::{Disk, Sink};
use soc_journal::OpenError;
use soc_schema::Reporter;
use std::alloc::Global;

/// Reads the disk's journal, or ends the run, with a line that tells why where the journal is refused.
#[tactic(auto, using(crate::proofs::OpeningLemmas::opens_not))]
pub fn open<R: Reporter, K: Sink, D: Disk>(
    alloc: Global,
    reporter: &R,
    limits: Limits,
    output: &mut K,
    disk: &mut D,
) -> Result<Restored, RunEnd>
    ensures opens { IfOk result (λ restored. Restores (R.row_of reporter.now)
        (R.digest_of reporter.now) limits (D.state disk.old) restored (D.state disk.new)) }
    ensures settled { IfOk result IsSettled }
    ensures output { IfOk result (λ _. output.new ≡ output.old) }
    ensures refused { IfErr result (λ end. (outlook : Outlook)
        → OpensNot (surroundings (K.told output.old) (D.state disk.old) outlook)
        (surroundings (K.told output.new) (D.state disk.new) outlook) end) }
    ensures only { OnlyWrites (K.told output.old) (K.told output.new) }
    ensures any_moment { IfSome (D.state disk.old).content
        (λ bytes. LeavesOnly (D.state disk.old) (D.state disk.new)
        (OpeningLeaves (D.state disk.old).images bytes)) }
    ensures goes_on { GoesOn (D.state disk.old) (D.state disk.new) }
    ensures cause { IfErr result (λ end. status_of end ≡ 7
        → WriteFailed (K.told output.old) (K.told output.new)) }
    ensures disk_cause { IfErr result (λ end. status_of end ≡ 4
        → DiskFailed (D.state disk.old) (D.state disk.new)) }
{
    match Restored::read(alloc, disk, reporter, limits) {
        Ok(restored) => Ok(restored),
        Err(error) => Err(refuse_journal(alloc, output, error)),
    }
}

/// Ends a run whose journal wasn't opened.
fn refuse_journal<K: Sink>(alloc: Global, output: &mut K, error: OpenError) -> RunEnd
    ensures refuses { RefusesJournalBy (K.told output.old) (K.told output.new) error result }
    ensures cause { result ≡ RunEnd.LineFault → WriteFailed (K.told output.old)
        (K.told output.new) }
    ensures only { OnlyWrites (K.told output.old) (K.told output.new) }
{
    let refusal = match error {
        OpenError::NotOurs => FileRefusal::NotJournal,
        OpenError::BadEntry { place } => FileRefusal::BadEntry { place },
        OpenError::StoreFault => return RunEnd::OpenFault,
        OpenError::NoMemory => return RunEnd::NoMemory,
    };
    match refuse(alloc, output, &refusal) {
        Line::Written => RunEnd::JournalRefused,
        Line::Cut => RunEnd::LineFault,
        Line::NoMemory => RunEnd::NoMemory,
    }
}
