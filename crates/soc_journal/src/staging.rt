//! Entries that are written behind a closed gate, where they count for nothing until it is opened.
ghost use Rattle.std.specs.Prelude.{◌≡◌, ◌+◌, ◌<◌, ◌≤◌, ◌^◌, length, IfSome, OnOk, OnErr, MatchOption};
ghost use Rattle.std.specs.Option.{option_map};
ghost use Rattle.soc_edge.specs.Disk.{written, Tears, WhereTold, Only, MayTear, DiskFailed};
ghost use Rattle.soc_journal.specs.Entries.{entries_text};
ghost use Rattle.soc_journal.specs.inner.Staging.{HasLength, behind_all};

use crate::entry_text::EntryText;
use soc_edge::{Disk, Failed};

/// How many bytes the entries have, where they and the closed gate behind them are no more than so many.
pub fn length_within(entries: &[EntryText], most: u64) -> Option<u64>
    ensures { MatchOption result (most < length (entries_text entries.now) + 1)
        (HasLength entries.now most) }
{
    let mut left = most.checked_sub(1)?;
    let mut rest = entries;
    while let Some((entry, behind)) = rest.split_first() {
        left = left.checked_sub(entry.count())?;
        rest = behind;
    }
    Some(most - 1 - left)
}

/// Writes the entries behind the closed gate at a place, one call of the disk for each, and makes them safe from a stop. The
/// gates of all but the first are open, and behind the last stands a closed one.
pub fn stage<D: Disk>(disk: &mut D, place: u64, entries: &[EntryText]) -> Result<(), Failed>
    requires some { 0 < length entries.now }
    requires within { place + length (entries_text entries.now) < 2 ^ 64 }
    ensures written { OnOk result ((D.state disk.new).content
        ≡ option_map (λ old. written old (place + 1) (behind_all entries.now))
        (D.state disk.old).content) }
    ensures durable { OnOk result (IfSome (D.state disk.new).content
        (λ now. Only now (D.state disk.new).images)) }
    ensures torn { WhereTold (Tears (place + 1) (length (behind_all entries.now)))
        (D.state disk.old).content (D.state disk.new).content }
    ensures tears { MayTear (place + 1) (length (behind_all entries.now)) (D.state disk.old)
        (D.state disk.new) }
    ensures calls { (D.state disk.new).calls ≤ (D.state disk.old).calls + length entries.now + 1 }
    ensures cause { OnErr result (DiskFailed (D.state disk.old) (D.state disk.new)) }
{
    write_all(disk, place, entries)?;
    disk.sync()
}

/// The same without the sync.
fn write_all<D: Disk>(disk: &mut D, place: u64, entries: &[EntryText]) -> Result<(), Failed>
    requires some { 0 < length entries.now }
    requires within { place + length (entries_text entries.now) < 2 ^ 64 }
    ensures written { OnOk result ((D.state disk.new).content
        ≡ option_map (λ old. written old (place + 1) (behind_all entries.now))
        (D.state disk.old).content) }
    ensures torn { WhereTold (Tears (place + 1) (length (behind_all entries.now)))
        (D.state disk.old).content (D.state disk.new).content }
    ensures tears { MayTear (place + 1) (length (behind_all entries.now)) (D.state disk.old)
        (D.state disk.new) }
    ensures calls { (D.state disk.new).calls ≤ (D.state disk.old).calls + length entries.now }
    ensures cause { OnErr result (DiskFailed (D.state disk.old) (D.state disk.new)) }
{
    let Some((first, others)) = entries.split_first() else {
        return Ok(());
    };
    disk.write_at(place + 1, first.behind_gate())?;
    let mut next = place + first.count();
    let mut rest = others;
    while let Some((entry, behind)) = rest.split_first() {
        disk.write_at(next, entry.as_slice())?;
        next += entry.count();
        rest = behind;
    }
    Ok(())
}
