//! `check`: opens the journal and counts what its log has.
ghost use Rattle.std.specs.Prelude.{◌≡◌, ◌++◌, IfOk};
ghost use Rattle.soc_edge.specs.Ahead.{Outlook};
ghost use Rattle.soc_edge.specs.Disk.{DiskFailed, GoesOn};
ghost use Rattle.soc_edge.specs.Told.{OnlyWrites, WriteFailed};
ghost use Rattle.soc_replay.specs.Check.{Checks, check_limits, count_line};
ghost use Rattle.soc_replay.specs.Ends.{status_of};
ghost use Rattle.soc_edge.specs.World.{surroundings};
ghost use Rattle.soc_replay.specs.inner.Checking.{TellsCounts, counts_of};

use crate::ending::RunEnd;
use crate::opening::open;
use crate::settings::{MOST_CRASHES, MOST_JOURNAL_BYTES};
use soc_base::{Bytes, NoMemory};
use soc_book::Book;
use soc_desk::Limits;
use soc_edge::{Disk, Sink, write_all};
use soc_schema::Bare;
use std::alloc::Global;

/// What a log has, counted.
#[derive(Clone, Copy)]
struct Counts {
    crashes: u32,
    asks: u64,
    due: u32,
    withdrawn: u32,
}

/// Opens the disk's journal, which is made where the disk is empty, and writes how many crashes it holds, how often one was
/// asked for, how many are due and how many were withdrawn.
pub(crate) fn check<K: Sink, D: Disk>(alloc: Global, output: &mut K, disk: &mut D) -> RunEnd
    ensures checks { (outlook : Outlook)
        → Checks (surroundings (K.told output.old) (D.state disk.old) outlook)
        (surroundings (K.told output.new) (D.state disk.new) outlook) result }
    ensures only { OnlyWrites (K.told output.old) (K.told output.new) }
    ensures goes_on { GoesOn (D.state disk.old) (D.state disk.new) }
    ensures cause { status_of result ≡ 7 → WriteFailed (K.told output.old) (K.told output.new) }
    ensures disk_cause { status_of result ≡ 4 → DiskFailed (D.state disk.old) (D.state disk.new) }
{
    let reporter = Bare;
    let limits = check_limits();
    let restored = match open(alloc, &reporter, limits, output, disk) {
        Ok(restored) => restored,
        Err(end) => return end,
    };
    let book = Book::over(alloc, disk, &reporter, limits, restored);
    let counts = Counts {
        crashes: book.crashes(),
        asks: book.asks(),
        due: book.due(),
        withdrawn: book.withdrawn(),
    };
    let _disk = book.into_disk();
    tell_counts(alloc, output, counts)
}

/// Writes the counts, one on a line.
fn tell_counts<K: Sink>(alloc: Global, output: &mut K, counts: Counts) -> RunEnd
    ensures tells { TellsCounts (K.told output.old) (K.told output.new) (counts_of counts) result }
    ensures cause { status_of result ≡ 7 → WriteFailed (K.told output.old) (K.told output.new) }
    ensures only { OnlyWrites (K.told output.old) (K.told output.new) }
{
    let Ok(text) = counts_text(alloc, counts) else {
        return RunEnd::NoMemory;
    };
    match write_all(output, text.as_slice()) {
        Ok(()) => RunEnd::Written,
        Err(_) => RunEnd::LineFault,
    }
}

/// A check goes by no settings.
fn check_limits() -> Limits
    ensures { result ≡ check_limits }
{
    Limits {
        journal_bytes: MOST_JOURNAL_BYTES,
        crashes: MOST_CRASHES as u32,
    }
}

/// The text that tells the counts.
fn counts_text(alloc: Global, counts: Counts) -> Result<Bytes, NoMemory>
    ensures { IfOk result (λ text. text ≡ counts_of counts) }
{
    let mut text = Vec::new(alloc);
    push_line(&mut text, b"crashes ", u64::from(counts.crashes))?;
    push_line(&mut text, b"asks ", counts.asks)?;
    push_line(&mut text, b"due ", u64::from(counts.due))?;
    push_line(&mut text, b"withdrawn ", u64::from(counts.withdrawn))?;
    Ok(Bytes::from(text))
}

/// Adds a line with a name and a number, as the texts that tell counts have it.
pub fn push_line(text: &mut Vec<u8>, name: &[u8], count: u64) -> Result<(), NoMemory>
    ensures { IfOk result (λ _. text.new.items ≡ text.old.items ++ count_line name.now count) }
{
    let mut digits = itoa::Buffer::new();
    text.extend_from_slice(name)?;
    text.extend_from_slice(digits.format(count).as_bytes())?;
    text.push(b'\n')?;
    Ok(())
}
