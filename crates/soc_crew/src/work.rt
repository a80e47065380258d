//! Collectors and processors beside each other.
ghost use Rattle.std.specs.Prelude.{◌≡◌, ◌⊎◌, ◌^◌, ◌<◌, List, true, All, vec_len};
ghost use Rattle.std.specs.List.{AllZip};
ghost use Rattle.soc_collect.specs.Asked.{AsksAll, Step};
ghost use Rattle.soc_collect.specs.Tallies.{nothing_served};
ghost use Rattle.soc_pool.specs.Passes.{IsPassOf, seen_of};
ghost use Rattle.soc_crew.specs.Jobs.{PutsEnds};

use crate::beside::side_by_side;
use crate::collector::Collector;
use crate::jobs::put_ends;
use crate::processor::Task;
use soc_collect::{Naming, Shared};
use soc_desk::KeepingDesk;
use soc_edge::{Clock, Draws};
use soc_listen::Listener;
use soc_pool::{Jobs, Pass};
use soc_session::{Setting, Stacks};
use std::sync::Wait;
use std::sync::ledger::Ledger;
use std::thread::Threads;

/// Has each collector, and each processor, work in a thread of its own. When all collectors have ended, an `End` is put for each processor.
pub(crate) fn work<
    K: KeepingDesk + Send + Drop,
    T: Task + Send + Drop,
    S: Stacks + Send + Sync,
    N: Ledger + Send + Sync,
    M: Ledger + Send + Sync,
    J: Naming + Send + Sync,
    R: Threads + Wait + Sync,
    L: Listener,
    C: Clock + Send,
    W: Draws + Send,
>(
    rt: &R,
    setting: &Setting<'_, S>,
    jobs: &Jobs,
    own: Pass,
    collectors: Vec<Collector<K, L::Link, N, M>>,
    processors: Vec<T>,
    shared: &Shared<L, N, M, J, C, W>,
) -> (Vec<Collector<K, L::Link, N, M>>, Vec<T>, Pass)
    requires collectors { All (λ c. (c.served ≡ nothing_served) × (K.added c.desk ≡ 0)
        × (c.ticket.handed.parts ≡ 1) × (c.ticket.refused.parts ≡ 1) × (c.ticket.handed.amount ≡ 0)
        × (c.ticket.refused.amount ≡ 0)) collectors.items }
    requires processors { All T.Ready processors.items }
    requires own { IsPassOf jobs.now own }
    ensures collectors { AllZip (λ before after.
        ((steps : List Step) × AsksAll K.Asks before.desk steps after.desk)
        × (after.served.connections ≡ after.ticket.handed.amount)
        × (after.served.kept ≡ K.added after.desk) × (after.served.kept < 2 ^ 60)
        × (after.ticket.handed.parts ≡ 1) × (after.ticket.refused.parts ≡ 1)
        × ((after.served.stopped ≡ true) ⊎ (0 < after.ticket.refused.amount))) collectors.items
        result.0.items }
    ensures processors { AllZip T.Did processors.items result.1.items }
    ensures own { IsPassOf jobs.now result.2
        × PutsEnds (vec_len processors) 0 (seen_of own) (seen_of result.2) }
{
    let ends = processors.len();
    let (collectors, processors, own) = side_by_side(
        rt,
        collectors,
        processors,
        &|_place: usize, collector: &mut Collector<K, L::Link, N, M>|
            requires new { (collector.old.served ≡ nothing_served)
                × (K.added collector.old.desk ≡ 0) }
            requires ticket { (collector.old.ticket.handed.parts ≡ 1)
                × (collector.old.ticket.refused.parts ≡ 1)
                × (collector.old.ticket.handed.amount ≡ 0)
                × (collector.old.ticket.refused.amount ≡ 0) }
            ensures asks { (steps : List Step)
                × AsksAll K.Asks collector.old.desk steps collector.new.desk }
            ensures served { (collector.new.served.connections ≡ collector.new.ticket.handed.amount)
                × (collector.new.served.kept ≡ K.added collector.new.desk)
                × (collector.new.served.kept < 2 ^ 60) }
            ensures ticket { (collector.new.ticket.handed.parts ≡ 1)
                × (collector.new.ticket.refused.parts ≡ 1) }
            ensures over { (collector.new.served.stopped ≡ true)
                ⊎ (0 < collector.new.ticket.refused.amount) }
        { collector.collect(rt, setting, shared) },
        &|_place: usize, processor: &mut T|
            requires { T.Ready processor.old }
            ensures { T.Did processor.old processor.new }
        { processor.run() },
        || -> Pass
            requires { IsPassOf jobs.now own }
            ensures { IsPassOf jobs.entry.now result
                × PutsEnds ends 0 (seen_of own) (seen_of result) }
        {
            // What still waits is left to the last sweep.
            jobs.forget(rt);
            put_ends(rt, jobs, own, ends)
        },
    );
    (collectors, processors, own)
}
