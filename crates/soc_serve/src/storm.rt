//! A storm: crashes that the program makes, submitted to a service over objects in memory.
ghost use Rattle.std.specs.Prelude.{◌≡◌, ◌≤◌, ◌<◌, ◌++◌, ◌+◌, [], map, IfOk, Some};
ghost use Rattle.soc_edge.specs.Calls.{no_calls};
ghost use Rattle.soc_edge.specs.DiskLog.{content_of};
ghost use Rattle.soc_edge.specs.Told.{OnlyWrites, WriteFailed};
ghost use Rattle.soc_listen.specs.Memory.{fresh_listener};
ghost use Rattle.soc_words.specs.Words.{LieInRanges};
ghost use Rattle.soc_serve.specs.Ends.{status_of};
ghost use Rattle.soc_serve.specs.Storm.{EndsStorm, PlaysOut, script_of};
ghost use Rattle.soc_serve.specs.inner.Storm.{PlaysBy};

use crate::ending::HostEnd;
use crate::files::read_files;
use crate::lines::LinesFault;
use crate::summary::sum_up;
use soc_base::{Blobs, Bytes, NoMemory};
use soc_book::Restored;
use soc_crew::{Crew, CrewEnd, CrewSetting, serve_together};
use soc_desk::Limits;
use soc_edge::{BytesList, Ids16, MemClock, MemDisk, MemDraws, MemTree, Numbers, Sink, write_all};
use soc_http::Routes;
use soc_listen::MemListener;
use soc_made::made_crash;
use soc_replay::Setup;
use soc_report::Kit;
use soc_schema::{Bare, Reporter};
use soc_service::Gate;
use soc_session::Setting;
use soc_siglists::RegexMaker;
use soc_turns::SharedBook;
use soc_words::Words;
use std::alloc::Global;
use std::snapshot::Snapshot;
use std::sync::Wait;
use std::thread::Threads;

/// The moment of each submission, in seconds since 1970.
const MOMENT: u64 = 1_474_156_800;

/// As many bytes as the entry of a made crash takes at most.
const ENTRY_BYTES: u64 = 4096;

/// As many writes and syncs as an entry takes at most.
const ENTRY_CALLS: u32 = 4;

/// As many bytes as the reply to a submission takes at most.
const REPLY_BYTES: usize = 256;

/// Submits made crashes to a service over objects in memory, and tells what its log has at the end. Where memory is wanting
/// for one of the crashes, nothing is told.
pub(crate) fn storm<R: Threads + Wait + Sync, K: Sink, G: Gate + Sync>(
    rt: &R,
    alloc: Global,
    words: &Words,
    output: &mut K,
    gate: &G,
) -> HostEnd
    requires ranges { LieInRanges words.now }
    requires few { words.now.count ≤ 65536 }
    ensures ends { EndsStorm words.now.count (K.told output.old) (K.told output.new) result }
    ensures only { OnlyWrites (K.told output.old) (K.told output.new) }
    ensures cause { status_of result ≡ 7 → WriteFailed (K.told output.old) (K.told output.new) }
{
    let Ok(text) = play(rt, alloc, words, gate) else {
        return HostEnd::Lines(LinesFault::NoMemory);
    };
    match write_all(output, text.as_slice()) {
        Ok(()) => HostEnd::Done,
        Err(_) => HostEnd::Lines(LinesFault::Cut),
    }
}

/// Plays a storm by a tree without files, and gives what is told of it.
fn play<R: Threads + Wait + Sync, G: Gate + Sync>(
    rt: &R,
    alloc: Global,
    words: &Words,
    gate: &G,
) -> Result<Bytes, NoMemory>
    requires ranges { LieInRanges words.now }
    requires few { words.now.count ≤ 65536 }
    ensures { IfOk result (λ text. ∥ PlaysOut words.now.count text ∥₁) }
{
    let mut tree = MemTree::new(Blobs::new(alloc), Numbers::new(Vec::new(alloc)));
    let mut maker = RegexMaker::new();
    let Ok((texts, setup)) = read_files(alloc, &mut tree) else {
        return Err(NoMemory);
    };
    let Ok(kit) = Kit::read(alloc, &texts.kit, &mut maker) else {
        return Err(NoMemory);
    };
    play_by(rt, alloc, words, &setup, &kit, gate)
}

/// Plays a storm by a setup and a reporter. Nobody asks for a stack in it.
fn play_by<'s, R: Threads + Wait + Sync, P: Reporter + Sync, G: Gate + Sync>(
    rt: &'s R,
    alloc: Global,
    words: &Words,
    setup: &'s Setup,
    reporter: &'s P,
    gate: &'s G,
) -> Result<Bytes, NoMemory>
    requires ranges { LieInRanges words.now }
    requires few { words.now.count ≤ 65536 }
    ensures { IfOk result (λ text.
        ∥ PlaysBy (P.row_of reporter.now)
        (P.digest_of reporter.now) setup.now.limits words.now.count text ∥₁) }
{
    let crew = Crew {
        collectors: words.collectors,
        processors: words.processors,
    };
    let routes = Routes::new(alloc)?;
    let mut disk = new_disk(alloc, words.count)?;
    let setting = CrewSetting {
        crew,
        session: Setting {
            alloc,
            rules: &setup.rules,
            routes: &routes,
            stacks: &Bare,
        },
        reporter,
        gate,
    };
    play_on(rt, setting, words, setup.limits, &mut disk)
}

/// Plays a storm by a crew over a disk.
fn play_on<'s, R: Threads + Wait + Sync, P: Reporter + Sync, G: Gate + Sync>(
    rt: &'s R,
    setting: CrewSetting<'s, Bare, P, G>,
    words: &Words,
    limits: Limits,
    disk: &'s mut MemDisk,
) -> Result<Bytes, NoMemory>
    requires ranges { LieInRanges words.now }
    requires few { words.now.count ≤ 65536 }
    requires crew { (setting.crew.collectors ≡ words.now.collectors)
        × (setting.crew.processors ≡ words.now.processors) }
    requires empty { content_of disk.old ≡ [] }
    ensures { IfOk result (λ text.
        ∥ PlaysBy (P.row_of setting.entry.reporter.now)
        (P.digest_of setting.entry.reporter.now) limits words.now.count text ∥₁) }
{
    let alloc = setting.session.alloc;
    let reporter = setting.reporter;
    let listener = new_listener(alloc, words.seed, words.count, words.collectors)?;
    let mut clock = MemClock::new(Numbers::new([MOMENT].to_vec(alloc)?));
    let mut draws = MemDraws::new(
        Numbers::new([0u64].to_vec(alloc)?),
        Ids16::new([[0u8; 16]].to_vec(alloc)?),
    );
    let opened = Snapshot::of(&*disk);
    let Ok(restored) = Restored::read(alloc, disk, reporter, limits) else {
        return Err(NoMemory);
    };
    let book = SharedBook::over(alloc, disk, reporter, limits, restored, opened);
    let CrewEnd {
        desk: book,
        failed,
        ..
    } = serve_together(rt, setting, book, listener, &mut clock, &mut draws);
    if failed? {
        return Err(NoMemory);
    }
    let mut book = book.into_book();
    let text = sum_up(alloc, &mut book, words.count);
    let _disk = book.into_disk();
    text
}

/// An empty disk with room for the entries of so many made crashes.
fn new_disk(alloc: Global, count: u32) -> Result<MemDisk, NoMemory>
    requires few { count ≤ 65536 }
    ensures { IfOk result (λ disk. content_of disk ≡ []) }
{
    let room = (u64::from(count) + 1) * ENTRY_BYTES;
    let calls = (count + 1) * ENTRY_CALLS;
    MemDisk::new(alloc, room, calls, Numbers::new(Vec::new(alloc)))
}

/// A listener with so many connections, among which the first crashes of a seed are dealt in turn.
fn new_listener(
    alloc: Global,
    seed: u64,
    count: u32,
    connections: u32,
) -> Result<MemListener, NoMemory>
    requires few { count ≤ 65536 }
    requires some { 0 < connections }
{
    let mut scripts = Vec::new(alloc);
    for rest in 0..connections {
        scripts.push(script(alloc, seed, count, connections, rest)?)?;
    }
    let room = (count / connections + 1) as usize * REPLY_BYTES;
    MemListener::new(
        alloc,
        BytesList::new(scripts),
        room,
        Numbers::new(Vec::new(alloc)),
    )
}

/// The messages that submit those of the first crashes whose number has this rest.
fn script(
    alloc: Global,
    seed: u64,
    count: u32,
    connections: u32,
    rest: u32,
) -> Result<Bytes, NoMemory>
    requires few { count ≤ 65536 }
    requires some { 0 < connections }
    ensures { IfOk result (λ text. text ≡ script_of seed connections rest count) }
{
    let mut text = Vec::new(alloc);
    for k in 0..count {
        if k % connections == rest {
            text.extend_from_slice(made_crash(alloc, seed, k)?.as_slice())?;
        }
    }
    Ok(Bytes::from(text))
}
