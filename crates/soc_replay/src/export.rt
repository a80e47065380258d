//! `export`: makes the reports that are missing, and writes the rows that a caller sees, keeping nothing.
ghost use Rattle.std.specs.Prelude.{◌≡◌, ◌⊎◌, IfErr, IfOk, IfSome, IsErrOf, OnErr};
ghost use Rattle.soc_edge.specs.Ahead.{Outlook};
ghost use Rattle.soc_edge.specs.Disk.{DiskFailed, GoesOn};
ghost use Rattle.soc_edge.specs.Faults.{Rose};
ghost use Rattle.soc_edge.specs.Told.{OnlyWrites, WriteFailed};
ghost use Rattle.soc_edge.specs.Tree.{TreeFailed};
ghost use Rattle.soc_edge.specs.World.{RunHasCause, RunsOn, StaysStill, surroundings};
ghost use Rattle.soc_replay.specs.Ends.{status_of};
ghost use Rattle.soc_replay.specs.Export.{Exports, ExportsJournal};
ghost use Rattle.soc_replay.specs.inner.Exporting.{EndsBy};
ghost use Rattle.soc_replay.specs.inner.Replay.{IsFilesFault};

use crate::ending::RunEnd;
use crate::opening::open;
use crate::refusal::{FileRefusal, FilesFault, Line, refuse};
use crate::replay::refuse_text;
use crate::setup::set_up;
use crate::texts::read_texts;
use soc_book::Book;
use soc_desk::Limits;
use soc_edge::{Clock, Disk, Draws, Sink, Source, TellsAll, Tree, World};
use soc_export::{ExportEnd, KeyError, read_caller, tell_log};
use soc_report::Kit;
use soc_schema::{Caller, Reporter};
use soc_siglists::Maker;
use std::alloc::Global;

/// Writes the rows that the bearer of the input's key sees, by the files of the tree, over the disk's journal.
pub(crate) fn export<T: Tree, X: Source + Sink, D: Disk, C: Clock, W: Draws, P: Maker>(
    alloc: Global,
    world: &mut World<T, X, D, C, W, P>,
) -> RunEnd
    ensures exports { let told = ⟦<World<T, X, D, C, W, P> as TellsAll>⟧.told in
        Exports (told world.old) (told world.new) result }
    ensures runs_on { let told = ⟦<World<T, X, D, C, W, P> as TellsAll>⟧.told in
        RunsOn (told world.old) (told world.new) }
    ensures cause { let told = ⟦<World<T, X, D, C, W, P> as TellsAll>⟧.told in
        RunHasCause (told world.old) (told world.new) (status_of result) }
{
    match run(alloc, world) {
        Ok(end) => end,
        Err(FilesFault::Refused(refusal)) => refuse_text(alloc, &mut world.streams, &refusal),
        Err(FilesFault::Tree) => RunEnd::TreeFault,
        Err(FilesFault::Maker) => RunEnd::MakerFault,
        Err(FilesFault::NoMemory) => RunEnd::NoMemory,
    }
}

/// Reads all files, looks at them in their order, reads who asks, and then opens the journal.
fn run<T: Tree, X: Source + Sink, D: Disk, C: Clock, W: Draws, P: Maker>(
    alloc: Global,
    world: &mut World<T, X, D, C, W, P>,
) -> Result<RunEnd, FilesFault>
    ensures runs { let told = ⟦<World<T, X, D, C, W, P> as TellsAll>⟧.told in
        IfOk result (Exports (told world.old) (told world.new)) }
    ensures fault { let told = ⟦<World<T, X, D, C, W, P> as TellsAll>⟧.told in
        IfErr result (λ fault. IfSome (told world.old).tree.files
        (λ files. IsFilesFault files fault)) }
    ensures before { let told = ⟦<World<T, X, D, C, W, P> as TellsAll>⟧.told in
        OnErr result (StaysStill (told world.old).around (told world.new).around) }
    ensures runs_on { let told = ⟦<World<T, X, D, C, W, P> as TellsAll>⟧.told in
        RunsOn (told world.old) (told world.new) }
    ensures tree_cause { IsErrOf result FilesFault.Tree
        → TreeFailed (T.told world.old.tree) (T.told world.new.tree) }
    ensures tree_first { IsErrOf result FilesFault.Tree
        → P.faults world.new.maker ≡ P.faults world.old.maker }
    ensures maker_cause { IsErrOf result FilesFault.Maker
        → Rose (P.faults world.old.maker) (P.faults world.new.maker) }
    ensures cause { let told = ⟦<World<T, X, D, C, W, P> as TellsAll>⟧.told in
        IfOk result (λ end. RunHasCause (told world.old) (told world.new) (status_of end)) }
{
    let texts = read_texts(alloc, &mut world.tree)?;
    let setup = set_up(alloc, &texts)?;
    let kit = Kit::read(alloc, &texts.kit, &mut world.maker)?;
    let rules = &setup.rules;
    match read_caller(alloc, &rules.tokens, &rules.public, &mut world.streams) {
        Ok(Some(caller)) => Ok(export_journal(
            alloc,
            &kit,
            setup.limits,
            &caller,
            &mut world.streams,
            &mut world.disk,
        )),
        Ok(None) => {
            let refusal = FileRefusal::UnknownKey;
            Ok(refuse_text(alloc, &mut world.streams, &refusal))
        }
        Err(KeyError::InputFault) => Ok(RunEnd::InputFault),
        Err(KeyError::NoMemory) => Ok(RunEnd::NoMemory),
    }
}

/// Opens the disk's journal, makes the reports of the crashes that are due, and writes the rows that the caller sees.
fn export_journal<R: Reporter, K: Sink, D: Disk>(
    alloc: Global,
    reporter: &R,
    limits: Limits,
    caller: &Caller,
    output: &mut K,
    disk: &mut D,
) -> RunEnd
    ensures exports { (outlook : Outlook) → ExportsJournal (R.row_of reporter.now)
        (R.digest_of reporter.now) limits caller.now
        (surroundings (K.told output.old) (D.state disk.old) outlook)
        (surroundings (K.told output.new) (D.state disk.new) outlook) result }
    ensures only { OnlyWrites (K.told output.old) (K.told output.new) }
    ensures goes_on { GoesOn (D.state disk.old) (D.state disk.new) }
    ensures cause { status_of result ≡ 7 → WriteFailed (K.told output.old) (K.told output.new) }
    ensures disk_cause { status_of result ≡ 4 → DiskFailed (D.state disk.old) (D.state disk.new) }
{
    let restored = match open(alloc, reporter, limits, output, disk) {
        Ok(restored) => restored,
        Err(end) => return end,
    };
    let mut book = Book::over(alloc, disk, reporter, limits, restored);
    let told = tell_log(alloc, &mut book, caller, output);
    let _disk = book.into_disk();
    end_by(alloc, told, output)
}

/// How a run ends, by what was told of the log. Where another record came back than was given, a line tells of which crash.
fn end_by<K: Sink>(alloc: Global, told: ExportEnd, output: &mut K) -> RunEnd
    ensures ends { EndsBy told (K.told output.old) (K.told output.new) result }
    ensures cause { status_of result ≡ 7 → (told ≡ ExportEnd.Cut)
        ⊎ WriteFailed (K.told output.old) (K.told output.new) }
    ensures only { OnlyWrites (K.told output.old) (K.told output.new) }
{
    let id = match told {
        ExportEnd::Written => return RunEnd::Written,
        ExportEnd::Cut => return RunEnd::LineFault,
        ExportEnd::DiskFault => return RunEnd::OpenFault,
        ExportEnd::NoMemory => return RunEnd::NoMemory,
        ExportEnd::Altered { id } => id,
    };
    match refuse(alloc, output, &FileRefusal::Altered { id }) {
        Line::Written => RunEnd::JournalRefused,
        Line::Cut => RunEnd::LineFault,
        Line::NoMemory => RunEnd::NoMemory,
    }
}
