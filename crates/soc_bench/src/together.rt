//! Submissions that a desk over a file carries out at once.
ghost use Rattle.std.specs.Prelude.{IfOk};
ghost use Rattle.std.specs.List.{AllByRecursion};
ghost use Rattle.soc_desk.specs.Kinds.{NeedsNothing};

use crate::crashes::crash_of;
use crate::fault::Fault;
use crate::numbers::number_up_to;
use soc_book::{Book, Prepared, Restored};
use soc_desk::{Command, Limits, Reply};
use soc_edge::Counted;
use soc_schema::Bare;
use soc_system::{Alarm, JournalFile};
use std::alloc::Global;
use std::fs::File;
use std::rt::Files;
use std::time::{Clock, Instant};

/// The most submissions.
const MOST: u64 = 65_536;

const LIMITS: Limits = Limits {
    journal_bytes: 1_073_741_824,
    crashes: 65_536,
};

/// Asks so many submissions of 1 KB of a desk over the file of a path, which is empty before, so many at once.
pub fn run<R: Files<File = File> + Clock + Print + Eprint + AllocGlobal>(
    rt: &R,
    words: &[String],
) -> Result<(), Fault> {
    let [path, count, batch] = words else {
        return Err(Fault::Words);
    };
    let count = number_up_to(count, MOST)?;
    let batch = number_up_to(batch, MOST)?.max(1);
    let alarm = Alarm::unheard();
    let mut disk = Counted::new(JournalFile::new(rt, path.as_str(), &alarm));
    let restored = Restored::read(rt.alloc(), &mut disk, &Bare, LIMITS)?;
    let mut book = Book::over(rt.alloc(), &mut disk, &Bare, LIMITS, restored);
    let mut stored = 0u64;
    let mut took = 0u64;
    for from in (0..count).step_by(batch as usize) {
        let commands = submissions(rt.alloc(), from, count.min(from.saturating_add(batch)))?;
        let start = Instant::now(rt)?;
        let receipts = book.ask_all(commands)?;
        took = took.saturating_add(u64::try_from(start.elapsed(rt)?.as_nanos())?);
        for receipt in &receipts {
            stored = stored.wrapping_add(u64::from(matches!(receipt.reply, Reply::Stored { .. })));
        }
    }
    println!(rt; "together: {stored} stored, {batch} at once")?;
    eprintln!(rt; "together: {} ns each", took / count.max(1))?;
    Ok(())
}

/// The submissions of crashes of these numbers.
fn submissions(alloc: Global, from: u64, to: u64) -> Result<Vec<Prepared>, Fault>
    ensures { IfOk result (λ commands. AllByRecursion NeedsNothing commands.items) }
{
    let mut commands = Vec::new(alloc);
    for number in from..to {
        let raw = crash_of(alloc, number)?;
        commands.push(Prepared::new(alloc, Command::Submit { raw }))?;
    }
    Ok(commands)
}
