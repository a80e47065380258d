//! What the program does with its words.
ghost use Rattle.std.specs.Prelude.{◌≡◌, ◌≤◌, map, string_bytes};
ghost use Rattle.soc_edge.specs.Told.{OnlyWrites, WriteFailed};
ghost use Rattle.soc_words.specs.Words.{words_of};
ghost use Rattle.soc_replay.specs.declared.ending.RunEnd.{RunEnd as End};
ghost use Rattle.soc_replay.specs.Ends.{status_of};
ghost use Rattle.soc_edge.specs.World.{RunHasCause, RunsOn};
ghost use Rattle.soc_replay.specs.Tasks.{RunsTask, RunsWords, made_end};
ghost use Rattle.soc_replay.specs.inner.Refusals.{TellsUsage};

use crate::check::check;
use crate::ending::RunEnd;
use crate::export::export;
use crate::replay::replay;
use soc_edge::{Clock, Disk, Draws, Sink, Source, TellsAll, Tree, World, write_all};
use soc_made::{MakeEnd, make};
use soc_siglists::Maker;
use soc_words::{Task, Words, WordsError};
use std::alloc::Global;

/// What the program writes to other words.
const USAGE: &[u8] = b"usage: socorro check|make|replay|serve|storm|export\n";

/// Runs the program.
///
/// `replay` reads the tree's files, opens the disk's journal, answers the messages of the input, the streams' source, on
/// the output, their sink, and keeps the reports that were made. `export` reads the same files and who asks from the input,
/// opens the journal, makes the reports that are missing, and writes the rows that are shown, keeping nothing. `check` opens
/// the journal and writes what its log has, counted. `make` writes messages that submit made crashes. With any other words,
/// also those of commands that another call carries, the usage line is written.
///
/// The answer is the status that the process ends with: 0 where the input ended after the last message or a message asked
/// for the end, and where `check`, `make` and `export` are done, 1 where a message was refused or cut short, 2 for other
/// words, 3 where a file or a key was refused and its line was written, 4 where the disk failed while the journal was opened
/// or reports were made or kept, 5 where the journal was refused and its line was written, 6 where the input failed, 7 where
/// the output failed, 8 where the tree failed, 9 where the messages answered hold `session_bytes` bytes or more, 10 where an
/// allocation failed, 11 where the maker of patterns failed.
pub fn run_words<T: Tree, X: Source + Sink, D: Disk, C: Clock, W: Draws, P: Maker>(
    alloc: Global,
    words: &[String],
    world: &mut World<T, X, D, C, W, P>,
) -> u8
    ensures runs { let told = ⟦<World<T, X, D, C, W, P> as TellsAll>⟧.told in
        (end : End) × (result ≡ status_of end)
        × RunsWords (words_of (map string_bytes words.now)) (told world.old) (told world.new) end }
    ensures runs_on { let told = ⟦<World<T, X, D, C, W, P> as TellsAll>⟧.told in
        RunsOn (told world.old) (told world.new) }
    ensures cause { let told = ⟦<World<T, X, D, C, W, P> as TellsAll>⟧.told in
        RunHasCause (told world.old) (told world.new) result }
{
    run(alloc, words, world).status()
}

/// Carries out what the words say.
fn run<T: Tree, X: Source + Sink, D: Disk, C: Clock, W: Draws, P: Maker>(
    alloc: Global,
    words: &[String],
    world: &mut World<T, X, D, C, W, P>,
) -> RunEnd
    ensures runs { let told = ⟦<World<T, X, D, C, W, P> as TellsAll>⟧.told in
        RunsWords (words_of (map string_bytes words.now)) (told world.old) (told world.new) result }
    ensures runs_on { let told = ⟦<World<T, X, D, C, W, P> as TellsAll>⟧.told in
        RunsOn (told world.old) (told world.new) }
    ensures cause { let told = ⟦<World<T, X, D, C, W, P> as TellsAll>⟧.told in
        RunHasCause (told world.old) (told world.new) (status_of result) }
{
    match Words::read(alloc, words) {
        Ok(words) => run_task(alloc, &words, world),
        Err(WordsError::NotOurs) => tell_usage(&mut world.streams),
        Err(WordsError::NoMemory) => RunEnd::NoMemory,
    }
}

/// Carries out a command.
fn run_task<T: Tree, X: Source + Sink, D: Disk, C: Clock, W: Draws, P: Maker>(
    alloc: Global,
    words: &Words,
    world: &mut World<T, X, D, C, W, P>,
) -> RunEnd
    requires { words.now.count ≤ 65536 }
    ensures runs { let told = ⟦<World<T, X, D, C, W, P> as TellsAll>⟧.told in
        RunsTask words.now words.now.command (told world.old) (told world.new) result }
    ensures runs_on { let told = ⟦<World<T, X, D, C, W, P> as TellsAll>⟧.told in
        RunsOn (told world.old) (told world.new) }
    ensures cause { let told = ⟦<World<T, X, D, C, W, P> as TellsAll>⟧.told in
        RunHasCause (told world.old) (told world.new) (status_of result) }
{
    match words.command {
        Task::Check => check(alloc, &mut world.streams, &mut world.disk),
        Task::Make => made_end(make(alloc, words.seed, words.count, &mut world.streams)),
        Task::Replay => replay(alloc, world),
        Task::Export => export(alloc, world),
        Task::Serve | Task::Storm => tell_usage(&mut world.streams),
    }
}

fn made_end(end: MakeEnd) -> RunEnd
    ensures { result ≡ made_end end }
{
    match end {
        MakeEnd::Done => RunEnd::Written,
        MakeEnd::WriteFault => RunEnd::LineFault,
        MakeEnd::NoMemory => RunEnd::NoMemory,
    }
}

/// Writes how the program is used.
pub fn tell_usage<K: Sink>(output: &mut K) -> RunEnd
    ensures tells { TellsUsage (K.told output.old) (K.told output.new) result }
    ensures cause { status_of result ≡ 7 → WriteFailed (K.told output.old) (K.told output.new) }
    ensures only { OnlyWrites (K.told output.old) (K.told output.new) }
{
    match write_all(output, USAGE) {
        Ok(()) => RunEnd::Usage,
        Err(_) => RunEnd::LineFault,
    }
}
