//! Runs of the program over objects in memory.
ghost use Rattle.std.specs.Prelude.{◌≡◌, map, string_bytes};
ghost use Rattle.soc_edge.specs.World.{RunHasCause, RunsOn};
ghost use Rattle.soc_replay.specs.Ends.{status_of};
ghost use Rattle.soc_replay.specs.Tasks.{RunsWords};
ghost use Rattle.soc_words.specs.Words.{words_of};

use soc_edge::{Both, MemClock, MemDisk, MemDraws, MemSink, MemSource, MemTree, TellsAll, World};
use soc_replay::run_words;
use soc_siglists::FailingMaker;
use std::alloc::Global;

/// A world in memory. It tells all that it holds.
pub type MemWorld = World<
    MemTree,
    Both<MemSource, MemSink>,
    MemDisk,
    MemClock,
    MemDraws,
    FailingMaker,
>;

/// Runs the program over a world in memory, and answers the status that it ends with.
pub fn run_in_memory(alloc: Global, words: &[String], world: &mut MemWorld) -> u8
    ensures runs { let told = ⟦<MemWorld as TellsAll>⟧.told in
        (end : _) × (result ≡ status_of end)
        × RunsWords (words_of (map string_bytes words.now)) (told world.old) (told world.new) end }
    ensures runs_on { let told = ⟦<MemWorld as TellsAll>⟧.told in
        RunsOn (told world.old) (told world.new) }
    ensures cause { let told = ⟦<MemWorld as TellsAll>⟧.told in
        RunHasCause (told world.old) (told world.new) result }
{
    run_words(alloc, words, world)
}
