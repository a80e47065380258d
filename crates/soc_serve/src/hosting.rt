//! What the program does with its words over a listener.
ghost use Rattle.std.specs.Prelude.{◌≡◌, ◌⊎◌, ◌+◌, ◌≤◌, IfErr, IfOk, IfSome, IsErrOf, OnErr, map, string_bytes, true};
ghost use Rattle.soc_collect.specs.Tallies.{nothing_served};
ghost use Rattle.soc_edge.specs.Faults.{Rose};
ghost use Rattle.soc_edge.specs.Tree.{TreeFailed};
ghost use Rattle.soc_edge.specs.World.{StaysStill};
ghost use Rattle.soc_listen.specs.Told.{HasEnded};
ghost use Rattle.soc_replay.specs.inner.Replay.{IsFilesFault};
ghost use Rattle.soc_words.specs.Words.{words_of};
ghost use Rattle.soc_serve.specs.Ends.{status_of};
ghost use Rattle.soc_serve.specs.Hosts.{HostHasCause, Hosts, HostsOn, HostsWords, IsServe};
ghost use Rattle.soc_serve.specs.declared.ending.HostEnd.{HostEnd as End};
ghost use Rattle.soc_serve.specs.inner.Hosting.{HostsFiles, IsCrew};

use crate::ending::HostEnd;
use crate::files::read_files;
use crate::serving::{Purpose, Site, serve};
use crate::storm::storm;
use soc_collect::Tally;
use soc_crew::Crew;
use soc_edge::{Clock, Draws, Sink, Telling, TellsAll, Tree, World};
use soc_listen::Listener;
use soc_pool::RingEnd;
use soc_replay::{FilesFault, KitStacks, RunEnd, refuse_text, tell_usage};
use soc_report::Kit;
use soc_service::Gate;
use soc_siglists::Maker;
use soc_words::{Task, Words, WordsError};
use std::alloc::Global;
use std::sync::Wait;
use std::thread::Threads;

/// Runs the service over a listener.
///
/// `serve` reads the tree's files, opens the disk's journal, and answers the messages of the listener's connections by
/// collectors, beside processors that make the reports; `served` counts what came of them. Once a message has asked for the
/// stop, the listener has no further connection, or it fails, what is due is processed, the reports are kept, and two lines
/// tell how many crashes are held and how many of them have a report.
///
/// `storm` does the same with crashes that it makes, over a listener, a disk, a clock and draws in memory that it makes
/// itself, but keeps no reports. After the two lines it writes one for each signature, with how many reports have it. Of what
/// is handed in, nothing but the output is touched. With any other words, also those of commands that another call carries,
/// the usage line is written.
///
/// The answer is the status that the process ends with, and the listener: 0 after a stop or the listener's end, and where a
/// storm was told; 2 for other words; 3 where a file was refused and its line was written; 4 where the disk failed while the
/// journal was opened or in the last sweep, or gave back there other bytes than it was given; 5 where the journal was refused
/// and its line was written; 6 where the listener failed; 7 where the output failed; 8 where the tree failed; 10 where an
/// allocation failed; 11 where the maker of patterns failed.
pub fn run_hall<
    R: Threads + Wait + Sync,
    T: Tree,
    L: Listener,
    K: Sink,
    D: Telling + Send,
    C: Clock + Send,
    W: Draws + Send,
    P: Maker,
    G: Gate + Sync,
>(
    rt: &R,
    alloc: Global,
    words: &[String],
    world: &mut World<T, K, D, C, W, P>,
    listener: L,
    gate: &G,
    served: &mut Tally<L::Link>,
) -> (u8, L, Option<RingEnd>)
    requires served { served.old ≡ nothing_served }
    ensures hosts { let told = ⟦<World<T, K, D, C, W, P> as TellsAll>⟧.told in
        (end : End) × (result.0 ≡ status_of end)
        × HostsWords (words_of (map string_bytes words.now)) served.new.kept result.2
        (told world.old) (told world.new) end }
    ensures handed { (L.told result.1).handed ≡ (L.told listener).handed + served.new.connections }
    ensures over { IsServe (words_of (map string_bytes words.now)) → result.0 ≡ 0
        → (served.new.stopped ≡ true) ⊎ HasEnded (L.told result.1) }
    ensures apart { ¬ (IsServe (words_of (map string_bytes words.now)))
        → (served.new ≡ nothing_served) × (result.1 ≡ listener) }
    ensures hosts_on { let told = ⟦<World<T, K, D, C, W, P> as TellsAll>⟧.told in
        HostsOn (told world.old) (told world.new) }
    ensures no_fewer { (L.told listener).faults ≤ (L.told result.1).faults }
    ensures cause { let told = ⟦<World<T, K, D, C, W, P> as TellsAll>⟧.told in
        HostHasCause (told world.old) (told world.new) result.0 }
    ensures listener_cause { result.0 ≡ 6 → Rose (L.told listener).faults (L.told result.1).faults }
{
    match Words::read(alloc, words) {
        Ok(words) => match words.command {
            Task::Serve => {
                let crew = Crew {
                    collectors: words.collectors,
                    processors: words.processors,
                };
                let site = Site {
                    rt,
                    alloc,
                    crew,
                    gate,
                };
                let (end, listener, jobs) = host(&site, world, listener, served);
                (end.status(), listener, jobs)
            }
            Task::Storm => {
                let end = storm(rt, alloc, &words, &mut world.streams, gate);
                (end.status(), listener, None)
            }
            Task::Check | Task::Make | Task::Replay | Task::Export => {
                let end = HostEnd::Before(tell_usage(&mut world.streams));
                (end.status(), listener, None)
            }
        },
        Err(WordsError::NotOurs) => {
            let end = HostEnd::Before(tell_usage(&mut world.streams));
            (end.status(), listener, None)
        }
        Err(WordsError::NoMemory) => {
            let end = HostEnd::Before(RunEnd::NoMemory);
            (end.status(), listener, None)
        }
    }
}

/// Serves by the files of the tree, over the disk's journal.
fn host<
    R: Threads + Wait + Sync,
    T: Tree,
    L: Listener,
    K: Sink,
    D: Telling + Send,
    C: Clock + Send,
    W: Draws + Send,
    P: Maker,
    G: Gate + Sync,
>(
    site: &Site<'_, R, G>,
    world: &mut World<T, K, D, C, W, P>,
    listener: L,
    served: &mut Tally<L::Link>,
) -> (HostEnd, L, Option<RingEnd>)
    requires crew { IsCrew site.now.crew }
    requires served { served.old ≡ nothing_served }
    ensures hosts { let told = ⟦<World<T, K, D, C, W, P> as TellsAll>⟧.told in
        Hosts site.now.crew served.new.kept result.2 (told world.old) (told world.new) result.0 }
    ensures handed { (L.told result.1).handed ≡ (L.told listener).handed + served.new.connections }
    ensures over { status_of result.0 ≡ 0 → (served.new.stopped ≡ true)
        ⊎ ((L.told result.1).ended ≡ true) }
    ensures hosts_on { let told = ⟦<World<T, K, D, C, W, P> as TellsAll>⟧.told in
        HostsOn (told world.old) (told world.new) }
    ensures no_fewer { (L.told listener).faults ≤ (L.told result.1).faults }
    ensures cause { let told = ⟦<World<T, K, D, C, W, P> as TellsAll>⟧.told in
        HostHasCause (told world.old) (told world.new) (status_of result.0) }
    ensures listener_cause { status_of result.0 ≡ 6
        → Rose (L.told listener).faults (L.told result.1).faults }
{
    let (ended, listener, jobs) = by_files(site, world, listener, served);
    match ended {
        Ok(end) => (end, listener, jobs),
        Err(FilesFault::Refused(refusal)) => {
            let end = refuse_text(site.alloc, &mut world.streams, &refusal);
            (HostEnd::Before(end), listener, None)
        }
        Err(FilesFault::Tree) => (HostEnd::Before(RunEnd::TreeFault), listener, None),
        Err(FilesFault::Maker) => (HostEnd::Before(RunEnd::MakerFault), listener, None),
        Err(FilesFault::NoMemory) => (HostEnd::Before(RunEnd::NoMemory), listener, None),
    }
}

/// Reads all files, looks at them in their order, and then serves. Where the files give nothing to go by, nothing else is
/// touched.
fn by_files<
    R: Threads + Wait + Sync,
    T: Tree,
    L: Listener,
    K: Sink,
    D: Telling + Send,
    C: Clock + Send,
    W: Draws + Send,
    P: Maker,
    G: Gate + Sync,
>(
    site: &Site<'_, R, G>,
    world: &mut World<T, K, D, C, W, P>,
    listener: L,
    served: &mut Tally<L::Link>,
) -> (Result<HostEnd, FilesFault>, L, Option<RingEnd>)
    requires crew { IsCrew site.now.crew }
    requires served { served.old ≡ nothing_served }
    ensures hosts { let told = ⟦<World<T, K, D, C, W, P> as TellsAll>⟧.told in
        IfOk result.0 (HostsFiles site.now.crew served.new.kept result.2 (told world.old)
        (told world.new)) }
    ensures fault { IfErr result.0
        (λ fault. IfSome (T.told world.old.tree).files
        (λ files. IsFilesFault files fault)) }
    ensures before { let told = ⟦<World<T, K, D, C, W, P> as TellsAll>⟧.told in
        OnErr result.0 (StaysStill (told world.old).around (told world.new).around) }
    ensures unserved { OnErr result.0 ((served.new ≡ nothing_served) × (result.1 ≡ listener)) }
    ensures handed { (L.told result.1).handed ≡ (L.told listener).handed + served.new.connections }
    ensures over { IfOk result.0 (λ end. status_of end ≡ 0
        → (served.new.stopped ≡ true) ⊎ ((L.told result.1).ended ≡ true)) }
    ensures hosts_on { let told = ⟦<World<T, K, D, C, W, P> as TellsAll>⟧.told in
        HostsOn (told world.old) (told world.new) }
    ensures no_fewer { (L.told listener).faults ≤ (L.told result.1).faults }
    ensures tree_cause { IsErrOf result.0 FilesFault.Tree
        → TreeFailed (T.told world.old.tree) (T.told world.new.tree) }
    ensures tree_first { IsErrOf result.0 FilesFault.Tree
        → P.faults world.new.maker ≡ P.faults world.old.maker }
    ensures maker_cause { IsErrOf result.0 FilesFault.Maker
        → Rose (P.faults world.old.maker) (P.faults world.new.maker) }
    ensures cause { let told = ⟦<World<T, K, D, C, W, P> as TellsAll>⟧.told in
        IfOk result.0 (λ end. HostHasCause (told world.old) (told world.new) (status_of end)) }
    ensures listener_cause { IfOk result.0 (λ end. status_of end ≡ 6
        → Rose (L.told listener).faults (L.told result.1).faults) }
{
    let (texts, setup) = match read_files(site.alloc, &mut world.tree) {
        Ok(files) => files,
        Err(fault) => return (Err(fault), listener, None),
    };
    let kit = match Kit::read(site.alloc, &texts.kit, &mut world.maker) {
        Ok(kit) => kit,
        Err(error) => return (Err(FilesFault::from(error)), listener, None),
    };
    let purpose = Purpose {
        site,
        setup: &setup,
        reporter: &kit,
        stacks: &KitStacks { kit: &kit },
    };
    let (end, listener, jobs) = serve(
        &purpose,
        listener,
        &mut world.streams,
        &mut world.disk,
        &mut world.clock,
        &mut world.draws,
        served,
    );
    (Ok(end), listener, jobs)
}
