//! Runs over disks that fail and stop, and what a later run finds of what was acknowledged.
use crate::asks::reply_to;
use crate::books::limits_of;
use crate::reporters::Digested;
use soc_book::{Book, Restored};
use soc_desk::{Limits, Refusal, Reply};
use soc_edge::{Disk, MemDisk, Numbers};
use soc_tables::{Fault, Row, copy};
use std::alloc::Global;

/// The reporter of both runs.
const REPORTER: Digested = Digested { digest: [7; 32] };

/// How many calls fail where all later ones do. No run makes so many.
const ALL_LATER: u64 = 200;

/// How many crashes were accepted, withdrawn and asked for, and how many reports were kept.
#[derive(Clone, Copy)]
struct Counts {
    accepted: u64,
    withdrawn: u64,
    asks: u64,
    reports: u64,
}

/// What a run acknowledged: its counts, and the acts that sent crashes, each before a comma.
#[derive(Drop)]
struct Run {
    counts: Counts,
    sent: String,
}

/// Whether after all runs, in each of which one more call of the disk fails first, a later run finds all that was acknowledged,
/// and one change more at most; or the first run after which it doesn't. After a failed call the later ones succeed or fail, as
/// the row says, and then the disk stops.
pub fn sweep(alloc: Global, row: &Row<'_>) -> Result<String, Fault> {
    for call in 0..row.number("calls")? {
        for choice in 0..row.number("stops")? {
            if !is_held(alloc, row, call, choice)? {
                return Ok(format!(in alloc; "not at call {call}, stop {choice}")?);
            }
        }
    }
    copy(alloc, "all")
}

/// Whether a run is held whose disk fails at this call, and stops so.
fn is_held(alloc: Global, row: &Row<'_>, call: u64, choice: u64) -> Result<bool, Fault> {
    let limits = limits_of(row)?;
    let mut disk = disk_of(alloc, row, call)?;
    let run = play(alloc, &mut disk, limits, row.cell("acts")?)?;
    holds(alloc, &mut disk.stop(choice), limits, &run)
}

/// A disk that begins as the row says, by two calls. Of the later ones, counted from 0, this one fails, and maybe all after it.
fn disk_of(alloc: Global, row: &Row<'_>, call: u64) -> Result<MemDisk, Fault> {
    let bytes = row.bytes(alloc, "bytes")?;
    let count = match row.cell("fails")? {
        "one" => 1,
        _ => ALL_LATER,
    };
    let fails = numbers_from(alloc, call.saturating_add(2), count)?;
    let mut disk = MemDisk::new(alloc, 8_000, 900, fails)?;
    disk.write_at(0, bytes.as_slice())?;
    disk.sync()?;
    Ok(disk)
}

fn numbers_from(alloc: Global, first: u64, count: u64) -> Result<Numbers, Fault> {
    let mut numbers = Vec::new(alloc);
    for number in 0..count {
        numbers.push(first.saturating_add(number))?;
    }
    Ok(Numbers::new(numbers))
}

/// Does acts in order, where the journal is read.
fn play(alloc: Global, disk: &mut MemDisk, limits: Limits, acts: &str) -> Result<Run, Fault> {
    let counts = Counts {
        accepted: 0,
        withdrawn: 0,
        asks: 0,
        reports: 0,
    };
    let mut run = Run {
        counts,
        sent: String::new(alloc),
    };
    if let Ok(restored) = Restored::read(alloc, disk, &REPORTER, limits) {
        let mut book = Book::over(alloc, disk, &REPORTER, limits, restored);
        act_on(alloc, &mut book, &mut run, acts)?;
    }
    Ok(run)
}

fn act_on(
    alloc: Global,
    book: &mut Book<'_, MemDisk, Digested>,
    run: &mut Run,
    acts: &str,
) -> Result<(), Fault> {
    for act in acts.split(',') {
        let reply = reply_to(alloc, book, act)?;
        acknowledge(run, act, &reply)?;
    }
    Ok(())
}

fn acknowledge(run: &mut Run, act: &str, reply: &Reply) -> Result<(), Fault> {
    match reply {
        Reply::Stored { .. } => {
            run.counts.accepted = run.counts.accepted.saturating_add(1);
            run.sent.push_str(act)?;
            run.sent.push(',')?;
        }
        Reply::Asked { asked: true, .. } => run.counts.asks = run.counts.asks.saturating_add(1),
        Reply::Withdrawn => run.counts.withdrawn = run.counts.withdrawn.saturating_add(1),
        Reply::Kept(count) => run.counts.reports = run.counts.reports.saturating_add(*count),
        _ => (),
    }
    Ok(())
}

/// Whether a later run finds what was acknowledged. Where nothing was, a journal that wasn't made whole may be refused.
fn holds(alloc: Global, image: &mut MemDisk, limits: Limits, run: &Run) -> Result<bool, Fault> {
    let Ok(restored) = Restored::read(alloc, image, &REPORTER, limits) else {
        return Ok(run.sent.is_empty());
    };
    let mut book = Book::over(alloc, image, &REPORTER, limits, restored);
    let found = counts_of(&book);
    Ok(
        has_one_more_at_most(run.counts, found)
            && are_found(alloc, &mut book, found, run.sent.as_str())?,
    )
}

fn counts_of(book: &Book<'_, MemDisk, Digested>) -> Counts {
    let withdrawn = u64::from(book.withdrawn());
    Counts {
        accepted: u64::from(book.crashes()).saturating_add(withdrawn),
        withdrawn,
        asks: book.asks(),
        reports: u64::from(book.reports()),
    }
}

/// Whether all that was acknowledged is counted, and one change more at most.
fn has_one_more_at_most(run: Counts, found: Counts) -> bool {
    let mut changes = 0u64;
    for (found, acknowledged) in [
        (found.accepted, run.accepted),
        (found.withdrawn, run.withdrawn),
        (found.asks, run.asks),
        (found.reports, run.reports),
    ] {
        let Some(more) = found.checked_sub(acknowledged) else {
            return false;
        };
        changes = changes.saturating_add(more);
    }
    changes <= 1
}

/// Whether each crash that is sent again is there, or was withdrawn.
fn are_found(
    alloc: Global,
    book: &mut Book<'_, MemDisk, Digested>,
    found: Counts,
    sent: &str,
) -> Result<bool, Fault> {
    for act in sent.split_terminator(',') {
        let reply = reply_to(alloc, book, act)?;
        if !is_there(&reply, found.withdrawn) {
            return Ok(false);
        }
    }
    Ok(true)
}

fn is_there(reply: &Reply, withdrawn: u64) -> bool {
    match reply {
        Reply::Repeated { .. } => true,
        Reply::Refused(Refusal::Withdrawn { .. }) => withdrawn > 0,
        _ => false,
    }
}
