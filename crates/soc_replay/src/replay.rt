//! `replay`: one session over input and output, over a desk whose log a journal keeps.
ghost use Rattle.std.specs.Prelude.{◌≡◌, IfErr, IfOk, IfSome, IsErrOf, OnErr};
ghost use Rattle.soc_edge.specs.Disk.{DiskFailed};
ghost use Rattle.soc_edge.specs.Faults.{Rose};
ghost use Rattle.soc_edge.specs.Told.{HasCause, OnlyWrites, WriteFailed};
ghost use Rattle.soc_edge.specs.Tree.{TreeFailed};
ghost use Rattle.soc_replay.specs.Ends.{status_of};
ghost use Rattle.soc_edge.specs.World.{RunHasCause, RunsOn, StaysStill};
ghost use Rattle.soc_replay.specs.Replay.{Replays, RunsBy};
ghost use Rattle.soc_replay.specs.inner.Replay.{IsFilesFault};
ghost use Rattle.soc_replay.specs.inner.Refusals.{RefusesText};

use crate::ending::RunEnd;
use crate::refusal::{FileRefusal, FilesFault, Line, refuse};
use crate::serving::{Purpose, serve};
use crate::setup::set_up;
use crate::stacks::KitStacks;
use crate::texts::read_texts;
use soc_edge::{Clock, Disk, Draws, Sink, Source, TellsAll, Tree, World};
use soc_report::Kit;
use soc_siglists::Maker;
use std::alloc::Global;

/// Answers the messages of the input on the output, by the files of the tree, over the disk's journal.
pub(crate) fn replay<T: Tree, X: Source + Sink, D: Disk, C: Clock, W: Draws, P: Maker>(
    alloc: Global,
    world: &mut World<T, X, D, C, W, P>,
) -> RunEnd
    ensures replays { let told = ⟦<World<T, X, D, C, W, P> as TellsAll>⟧.told in
        Replays (told world.old) (told world.new) result }
    ensures runs_on { let told = ⟦<World<T, X, D, C, W, P> as TellsAll>⟧.told in
        RunsOn (told world.old) (told world.new) }
    ensures cause { let told = ⟦<World<T, X, D, C, W, P> as TellsAll>⟧.told in
        RunHasCause (told world.old) (told world.new) (status_of result) }
{
    match run(alloc, world) {
        Ok(end) => end,
        Err(FilesFault::Refused(refusal)) => refuse_text(alloc, &mut world.streams, &refusal),
        Err(FilesFault::Tree) => RunEnd::TreeFault,
        Err(FilesFault::Maker) => RunEnd::MakerFault,
        Err(FilesFault::NoMemory) => RunEnd::NoMemory,
    }
}

/// Reads all files, looks at them in their order, and then serves. Where the files give nothing to go by, nothing else is
/// touched.
fn run<T: Tree, X: Source + Sink, D: Disk, C: Clock, W: Draws, P: Maker>(
    alloc: Global,
    world: &mut World<T, X, D, C, W, P>,
) -> Result<RunEnd, FilesFault>
    ensures runs { let told = ⟦<World<T, X, D, C, W, P> as TellsAll>⟧.told in
        IfOk result (RunsBy (told world.old) (told world.new)) }
    ensures fault { let told = ⟦<World<T, X, D, C, W, P> as TellsAll>⟧.told in
        IfErr result (λ fault. IfSome (told world.old).tree.files
        (λ files. IsFilesFault files fault)) }
    ensures before { let told = ⟦<World<T, X, D, C, W, P> as TellsAll>⟧.told in
        OnErr result (StaysStill (told world.old).around (told world.new).around) }
    ensures runs_on { let told = ⟦<World<T, X, D, C, W, P> as TellsAll>⟧.told in
        RunsOn (told world.old) (told world.new) }
    ensures tree_cause { IsErrOf result FilesFault.Tree
        → TreeFailed (T.told world.old.tree) (T.told world.new.tree) }
    ensures tree_first { IsErrOf result FilesFault.Tree
        → P.faults world.new.maker ≡ P.faults world.old.maker }
    ensures maker_cause { IsErrOf result FilesFault.Maker
        → Rose (P.faults world.old.maker) (P.faults world.new.maker) }
    ensures cause { IfOk result (λ end. HasCause (status_of end ≡ 6) (status_of end ≡ 7)
        (X.told world.old.streams) (X.told world.new.streams)) }
    ensures disk_cause { IfOk result (λ end. status_of end ≡ 4
        → DiskFailed (D.state world.old.disk) (D.state world.new.disk)) }
{
    let texts = read_texts(alloc, &mut world.tree)?;
    let setup = set_up(alloc, &texts)?;
    let kit = Kit::read(alloc, &texts.kit, &mut world.maker)?;
    let purpose = Purpose {
        setup: &setup,
        reporter: &kit,
        stacks: &KitStacks { kit: &kit },
    };
    Ok(serve(
        alloc,
        &purpose,
        &mut world.streams,
        &mut world.disk,
        &mut world.clock,
        &mut world.draws,
    ))
}

/// Writes the line that tells which file is refused.
pub fn refuse_text<K: Sink>(alloc: Global, output: &mut K, refusal: &FileRefusal) -> RunEnd
    ensures refuses { RefusesText (K.told output.old) (K.told output.new) refusal.now result }
    ensures cause { result ≡ RunEnd.LineFault → WriteFailed (K.told output.old)
        (K.told output.new) }
    ensures only { OnlyWrites (K.told output.old) (K.told output.new) }
{
    match refuse(alloc, output, refusal) {
        Line::Written => RunEnd::TextRefused,
        Line::Cut => RunEnd::LineFault,
        Line::NoMemory => RunEnd::NoMemory,
    }
}
