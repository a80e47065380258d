//! Runs whose disk fails at each call in turn and is stopped then, and what is left of what was acknowledged.
use crate::case::{number_of, text_of};
use crate::fault::Fault;
use crate::play::{Left, play_over, run};
use soc_base::Bytes;
use soc_edge::{MemDisk, MemSink, Numbers};
use std::alloc::Global;
use toml::Table;

/// How many calls fail, one after the other: one, or more than a run makes.
const FAILING: [u64; 2] = [1, 1_024];

/// What a stop leaves of the writes since the last sync, a digit in base 4 for each: none of it, all of it, its first half,
/// or each of its bits flipped. After the first eight numbers the same is left of every write.
const CHOICES: [u64; 11] = [
    0,
    1,
    2,
    3,
    4,
    5,
    6,
    7,
    0x5555_5555_5555_5555,
    0xaaaa_aaaa_aaaa_aaaa,
    u64::MAX,
];

/// Plays a case over a disk that fails at one call, or from it on, for each call up to the case's `calls`, and after each of
/// several stops. Prints at which call the disk that is left doesn't hold just what was acknowledged.
pub fn sweep<R: Print + AllocGlobal>(rt: &R, document: &Table, case: &Table) -> Result<(), Fault> {
    let name = text_of(case, "name")?;
    for call in 0..number_of(case, "calls", 0)? {
        for count in FAILING {
            if let Some(choice) = first_wrong(rt.alloc(), document, case, call, count)? {
                println!(rt;
                    "{name}: not what was acknowledged at call {call}, {count} failing, stop {choice}"
                )?;
                return Ok(());
            }
        }
    }
    println!(rt; "{name}: as expected")?;
    Ok(())
}

/// The first stop whose disk doesn't hold just what was acknowledged, where there is one.
fn first_wrong(
    alloc: Global,
    document: &Table,
    case: &Table,
    call: u64,
    count: u64,
) -> Result<Option<u64>, Fault> {
    let mut before = None;
    for choice in CHOICES {
        let fails = calls_from(alloc, call, count)?;
        let Left { output, disk, .. } = play_over(alloc, document, case, fails)?;
        let disk = disk.stop(choice);
        if is_same(&before, &disk) {
            continue;
        }
        before = Some(disk.bytes().to_vec(alloc)?);
        if !holds_just(alloc, case, text_in(&output)?, disk)? {
            return Ok(Some(choice));
        }
    }
    Ok(None)
}

/// Whether a disk holds the same bytes as the one before.
fn is_same(before: &Option<Vec<u8>>, disk: &MemDisk) -> bool {
    match before {
        Some(bytes) => bytes.as_slice() == disk.bytes(),
        None => false,
    }
}

/// The numbers of so many calls from one on.
pub fn calls_from(alloc: Global, first: u64, count: u64) -> Result<Numbers, Fault> {
    let mut calls = Vec::new(alloc);
    for number in 0..count {
        calls.push(first.saturating_add(number))?;
    }
    Ok(Numbers::new(calls))
}

/// Whether a disk holds what replies acknowledge, and one change more at most where a reply tells a fault. Without replies the
/// journal may not be whole.
fn holds_just(alloc: Global, case: &Table, replies: &str, disk: MemDisk) -> Result<bool, Fault> {
    if replies.is_empty() {
        return Ok(true);
    }
    let none = Bytes::of(alloc, b"")?;
    let Left {
        status,
        output,
        disk,
    } = run(alloc, &words_of(alloc, "check")?, case, none, disk)?;
    let counts = text_in(&output)?;
    if status != 0 || !are_just(replies, counts) {
        return Ok(false);
    }
    let found = count_found(alloc, case, replies, disk)?;
    Ok(count_of(replies, ID) <= found.saturating_add(number_behind(counts, "withdrawn ")))
}

/// How many of the crashes whose ids replies give a disk's journal shows.
fn count_found(alloc: Global, case: &Table, replies: &str, disk: MemDisk) -> Result<u64, Fault> {
    let reads = Bytes::from(reads_of(alloc, replies)?);
    let read = run(alloc, &words_of(alloc, "replay")?, case, reads, disk)?;
    Ok(count_of(text_in(&read.output)?, "HTTP/1.1 200 "))
}

/// What stands before the id of a crash that is acknowledged.
const ID: &str = "CrashID=bp-";

/// Whether these are the counts of what replies acknowledge, with one change more at most where a reply tells a fault.
fn are_just(replies: &str, counts: &str) -> bool {
    let withdrawn = number_behind(counts, "withdrawn ");
    let accepted = number_behind(counts, "crashes ").saturating_add(withdrawn);
    let mut more = 0u64;
    for (found, word) in [
        (accepted, ID),
        (withdrawn, "{\"withdrawn\":true}"),
        (number_behind(counts, "asks "), "{\"asked\":true}"),
    ] {
        let Some(unacknowledged) = found.checked_sub(count_of(replies, word)) else {
            return false;
        };
        more = more.saturating_add(unacknowledged);
    }
    more <= count_of(replies, "store_fault").min(1)
}

/// Messages that read the crashes whose ids replies give.
fn reads_of(alloc: Global, replies: &str) -> Result<Vec<u8>, Fault> {
    let mut reads = Vec::new(alloc);
    for line in replies.lines() {
        if let Some(id) = line.strip_prefix(ID) {
            reads.extend_from_slice(b"GET /api/RawCrash/?crash_id=")?;
            reads.extend_from_slice(id.as_bytes())?;
            reads.extend_from_slice(b" HTTP/1.1\r\nHost: h\r\n\r\n")?;
        }
    }
    Ok(reads)
}

pub fn words_of(alloc: Global, command: &str) -> Result<Vec<String>, Fault> {
    Ok(vec![in alloc; String::from_str(alloc, command)?]?)
}

pub fn text_in(output: &MemSink) -> Result<&str, Fault> {
    str::from_utf8(output.bytes()).map_err(|_| Fault::Wrong("output"))
}

/// How often a word occurs.
fn count_of(text: &str, word: &str) -> u64 {
    (text.split(word).count() as u64).saturating_sub(1)
}

/// The number behind a word on a line of its own, or 0.
pub fn number_behind(text: &str, word: &str) -> u64 {
    let number = text.lines().find_map(|line| line.strip_prefix(word));
    number.and_then(|number| number.parse().ok()).unwrap_or(0)
}
