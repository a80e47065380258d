//! One run of the program over objects in memory.
ghost use Rattle.std.specs.Prelude.{[], ◌∷◌, ◌≡◌, IfOk, codes, option_map, unwrap_or};
ghost use Rattle.toml.specs.View.{table_view};
ghost use Rattle.soc_edge.specs.DiskLog.{content_of};
ghost use Rattle.soc_toml.specs.Keys.{text_at};
ghost use Rattle.soc_cases.specs.Keys.{number_at};
ghost use Rattle.soc_cases.specs.Runs.{IsStopped};

use crate::case::{calls_of, files_of, flag_of, ids_of, joined, number_of, words_of};
use crate::fault::Fault;
use crate::memory::{MemWorld, run_in_memory};
use soc_base::Bytes;
use soc_edge::{
    Both, Disk, Ids16, MemClock, MemDisk, MemDraws, MemSink, MemSource, MemTree, Numbers, World,
};
use soc_raw::{FIRST_MOMENT, LAST_MOMENT};
use soc_siglists::FailingMaker;
use soc_toml::{text_at, value_at};
use std::alloc::{AllocError, Global};
use toml::Table;

/// The first second of 18 September 2016.
const MOMENT: u64 = 1_474_156_800;

/// The most bytes that a run may write on its output.
const OUTPUT: usize = 65_536;

/// The bytes of a disk, and its writes and syncs.
const ROOM: u64 = 33_554_432;

const WRITES: u32 = 65_536;

/// What a run leaves.
#[derive(Drop)]
pub struct Left {
    pub status: u8,
    pub output: MemSink,
    pub disk: MemDisk,
}

/// Plays a case behind the one before.
pub fn play(
    alloc: Global,
    document: &Table,
    case: &Table,
    before: Option<Left>,
) -> Result<Left, Fault> {
    let words = words_of(alloc, case)?;
    let input = input_of(alloc, document, case, &before)?;
    let disk = disk_of(alloc, case, before)?;
    run(alloc, &words, case, input, disk)
}

/// Plays a case over an empty disk whose calls with these numbers fail.
pub fn play_over(
    alloc: Global,
    document: &Table,
    case: &Table,
    fails: Numbers,
) -> Result<Left, Fault> {
    let words = words_of(alloc, case)?;
    let input = Bytes::from(joined(alloc, document, case, "input")?);
    let disk = MemDisk::new(alloc, ROOM, WRITES, fails)?;
    run(alloc, &words, case, input, disk)
}

/// Runs the program with the files and the faults of a case.
pub fn run(
    alloc: Global,
    words: &[String],
    case: &Table,
    input: Bytes,
    disk: MemDisk,
) -> Result<Left, Fault> {
    let mut world = world_of(alloc, case, input, disk)?;
    let status = run_in_memory(alloc, words, &mut world);
    let World { streams, disk, .. } = world;
    let Both { sink, .. } = streams;
    Ok(Left {
        status,
        output: sink,
        disk,
    })
}

/// The world of a case.
fn world_of(alloc: Global, case: &Table, input: Bytes, disk: MemDisk) -> Result<MemWorld, Fault> {
    Ok(World {
        tree: tree_of(alloc, case)?,
        streams: streams_of(alloc, case, input)?,
        disk,
        clock: clock_of(alloc, case)?,
        draws: draws_of(alloc, case)?,
        maker: maker_of(alloc, case)?,
    })
}

fn streams_of(alloc: Global, case: &Table, input: Bytes) -> Result<Both<MemSource, MemSink>, Fault>
    ensures reads { IfOk result (λ streams. streams.source.left ≡ input) }
    ensures empty { IfOk result (λ streams. streams.sink.held ≡ []) }
{
    let source = MemSource::new(input, calls_of(alloc, case, "input_fails")?);
    let sink = sink_of(alloc, case)?;
    Ok(Both { source, sink })
}

fn sink_of(alloc: Global, case: &Table) -> Result<MemSink, Fault>
    ensures { IfOk result (λ sink. sink.held ≡ []) }
{
    let fails = calls_of(alloc, case, "output_fails")?;
    Ok(MemSink::new(alloc, OUTPUT, fails)?)
}

fn tree_of(alloc: Global, case: &Table) -> Result<MemTree, Fault> {
    let fails = calls_of(alloc, case, "tree_fails")?;
    Ok(MemTree::new(files_of(alloc, case)?, fails))
}

fn maker_of(alloc: Global, case: &Table) -> Result<FailingMaker, Fault> {
    Ok(FailingMaker::new(calls_of(alloc, case, "maker_fails")?))
}

/// The input of a case: the texts that it names, or what the run before wrote.
fn input_of(
    alloc: Global,
    document: &Table,
    case: &Table,
    before: &Option<Left>,
) -> Result<Bytes, Fault> {
    if !flag_of(case, "takes_output")? {
        return Ok(Bytes::from(joined(alloc, document, case, "input")?));
    }
    match before {
        Some(left) => Ok(Bytes::of(alloc, left.output.bytes())?),
        None => Err(Fault::Wrong("takes_output")),
    }
}

/// The disk of a case: what a stop leaves of the one before, or one with the bytes of a text.
fn disk_of(alloc: Global, case: &Table, before: Option<Left>) -> Result<MemDisk, Fault> {
    if value_at(case, "stop").is_some() {
        stopped(case, before)
    } else {
        new_disk(alloc, case)
    }
}

fn stopped(case: &Table, before: Option<Left>) -> Result<MemDisk, Fault>
    ensures { IfOk result (λ disk. IsStopped (number_at (codes "stop") 0 (table_view case.now)) (option_map (λ left. left.disk) before) disk.first) }
{
    let choice = number_of(case, "stop", 0)?;
    match before {
        Some(left) => Ok(left.disk.stop(choice)),
        None => Err(Fault::Wrong("stop")),
    }
}

fn new_disk(alloc: Global, case: &Table) -> Result<MemDisk, Fault>
    ensures { IfOk result (λ disk. content_of disk ≡ unwrap_or (text_at (codes "disk") (table_view case.now)) []) }
{
    let fails = calls_of(alloc, case, "disk_fails")?;
    let mut disk = MemDisk::new(alloc, ROOM, WRITES, fails)?;
    if let Some(text) = text_at(case, "disk") {
        if disk.write_at(0, text.as_bytes()).is_err() {
            return Err(Fault::Wrong("disk"));
        }
    }
    Ok(disk)
}

/// A disk that holds these bytes. The first two of its calls write and sync them; those with these numbers fail.
pub fn disk_with(alloc: Global, bytes: &[u8], fails: Numbers) -> Result<MemDisk, Fault>
    ensures { IfOk result (λ disk. content_of disk ≡ bytes.now) }
{
    let mut disk = unsynced_disk(alloc, bytes, fails)?;
    match disk.sync() {
        Ok(()) => Ok(disk),
        Err(_) => Err(Fault::Wrong("disk")),
    }
}

fn unsynced_disk(alloc: Global, bytes: &[u8], fails: Numbers) -> Result<MemDisk, Fault>
    ensures { IfOk result (λ disk. content_of disk ≡ bytes.now) }
{
    let mut disk = MemDisk::new(alloc, ROOM, WRITES, fails)?;
    match disk.write_at(0, bytes) {
        Ok(()) => Ok(disk),
        Err(_) => Err(Fault::Wrong("disk")),
    }
}

fn numbers(alloc: Global, item: u64) -> Result<Numbers, AllocError>
    ensures { IfOk result (λ n. n ≡ item ∷ []) }
{
    Ok(Numbers::new(vec![in alloc; item; 1]?))
}

fn clock_of(alloc: Global, case: &Table) -> Result<MemClock, Fault> {
    let moment = number_of(case, "moment", MOMENT)?;
    if moment < FIRST_MOMENT || LAST_MOMENT < moment {
        return Err(Fault::Wrong("moment"));
    }
    Ok(MemClock::new(numbers(alloc, moment)?))
}

fn draws_of(alloc: Global, case: &Table) -> Result<MemDraws, Fault> {
    let ids = ids_of(alloc, case)?;
    if ids.is_empty() {
        return Err(Fault::Wrong("ids"));
    }
    let draw = number_of(case, "draw", 0)?;
    Ok(MemDraws::new(numbers(alloc, draw)?, Ids16::new(ids)))
}
