//! A journal that entries are appended to.
ghost use Rattle.std.specs.Prelude.{◌≡◌, ◌+◌, ◌-◌, ◌<◌, ◌≤◌, ◌↔◌, List, Some, None, [], ◌∷◌, ◌++◌, length, IfSome, IsSome, IsSomeAnd, IfOk, OnOk, OnErr, Ok, IsErrOf, IsTrue};
ghost use Rattle.std.specs.Option.{option_map};
ghost use Rattle.soc_edge.specs.Disk.{written, Tears, WhereTold, Only, LeavesOnly, Looks, MayTear, DiskFailed};
ghost use Rattle.soc_journal.specs.Entries.{Entry, entry_text, entries_text, sealed, sealed_all, first_gate, beside_body};
ghost use Rattle.soc_journal.specs.Text.{empty_journal, EitherText};
ghost use Rattle.soc_journal.specs.States.{AtRest, InDoubt, IsKeptAt, ReadsOpen, SettledBy, entries_after, journal_after};

use crate::entry_text::EntryText;
use crate::error::AppendError;
use crate::format::{CLOSED_GATE, EMPTY_JOURNAL, FIRST_GATE, OPEN_GATE};
use crate::reading::reads_piece;
use crate::settled::Settled;
use crate::staging::{length_within, stage};
use crate::writing::write_and_sync;
use soc_edge::{Disk, Failed};
use std::marker::Model;

/// A journal on a disk: where its closed gate stands, the most bytes that it may have, and whether an append failed
/// and wasn't mended. It holds none of its entries.
///
/// What is said of a disk's content holds where the disk tells it, and where the disk is the one that this journal's
/// last call has left.
#[derive(Drop)]
pub struct Journal {
    gate: u64,
    limit: u64,
    doubt: Option<u64>,
}

impl Model for Journal {
    ghost use Rattle.std.specs.Prelude.{◌+◌, ◌≤◌};
    ghost use Rattle.std.specs.Option.{ForSome};
    ghost use Rattle.soc_journal.specs.States.{JournalState};

    ghost Value = { JournalState };

    ghost view = { λ j. record { gate = j.gate; limit = j.limit; doubt = j.doubt } };

    ghost invariant = { λ j. ForSome j.doubt (λ count. j.gate + count ≤ j.limit) };
}

impl Journal {
    /// Makes an empty journal of at most `limit` bytes on a disk of length 0, by one write and one sync. It takes no
    /// memory. After `Failed`, and at a stop inside this call, that write may be torn, and nothing else was written.
    pub fn create<D: Disk>(disk: &mut D, limit: u64) -> Result<Journal, Failed>
        requires { IfSome (D.state disk.old).content (λ bytes. bytes ≡ []) }
        ensures journal { IfOk result (λ journal. journal
            ≡ record { gate = first_gate; limit = limit; doubt = None }) }
        ensures content { OnOk result ((D.state disk.new).content
            ≡ option_map (λ _. empty_journal) (D.state disk.old).content) }
        ensures at_rest { IfOk result (λ journal.
            IfSome (D.state disk.new).content
            (λ bytes. AtRest journal [] bytes (D.state disk.new).images)) }
        ensures torn { WhereTold (Tears 0 (length empty_journal)) (D.state disk.old).content
            (D.state disk.new).content }
        ensures tears { MayTear 0 (length empty_journal) (D.state disk.old) (D.state disk.new) }
        ensures calls { (D.state disk.new).calls ≤ (D.state disk.old).calls + 2 }
        ensures cause { OnErr result (DiskFailed (D.state disk.old) (D.state disk.new)) }
    {
        write_and_sync(disk, 0, &EMPTY_JOURNAL)?;
        Ok(Journal::behind(FIRST_GATE, limit))
    }

    /// Whether an append failed and wasn't mended.
    pub fn in_doubt(&self) -> bool
        ensures { IsTrue result ↔ IsSome self.now.doubt }
    {
        self.doubt.is_some()
    }

    /// Appends an entry: `append_all` of that one. It is two writes and two syncs at most.
    ///
    /// `JournalFull` comes exactly where the place of the closed gate, 7 and the body's length together are over the
    /// limit; then the disk isn't touched. After `StoreFault` the journal is in doubt.
    pub fn append<D: Disk>(&mut self, disk: &mut D, entry: &EntryText) -> Result<u64, AppendError>
        requires { self.old.doubt ≡ None }

        ensures full { IsErrOf result AppendError.JournalFull
            ↔ (self.old.limit < self.old.gate + beside_body + length entry.now.body) }
        ensures full_journal { IsErrOf result AppendError.JournalFull → self.new ≡ self.old }
        ensures full_disk { IsErrOf result AppendError.JournalFull → disk.new ≡ disk.old }

        ensures place { IfOk result (λ place. place ≡ self.old.gate) }
        ensures journal { OnOk result (self.new
            ≡ record self.old { gate = self.old.gate + length (entry_text entry.now) }) }
        ensures doubt { IsErrOf result AppendError.StoreFault
            → self.new ≡ record self.old { doubt = Some (length (entry_text entry.now)) } }

        // The entry, with the closed gate behind it, is written where the closed gate stood; nothing else ever is.
        ensures content { OnOk result ((D.state disk.new).content
            ≡ option_map (λ bytes. written bytes self.old.gate (sealed entry.now))
            (D.state disk.old).content) }
        ensures torn { WhereTold (Tears self.old.gate (length (sealed entry.now)))
            (D.state disk.old).content (D.state disk.new).content }
        ensures tears { MayTear self.old.gate (length (sealed entry.now)) (D.state disk.old)
            (D.state disk.new) }

        // At `Ok` the content and each image have the entry.
        ensures acknowledged { OnOk result (IfSome (D.state disk.old).content (λ bytes.
            (entries : List Entry) → AtRest self.old entries bytes (D.state disk.old).images
            → IsSomeAnd (D.state disk.new).content
            (λ now. AtRest self.new (entries ++ entry.now ∷ []) now
            (D.state disk.new).images))) }

        // After `StoreFault` the content and each image have it or don't.
        ensures in_doubt { IsErrOf result AppendError.StoreFault
            → IfSome (D.state disk.old).content (λ bytes.
            (entries : List Entry) → AtRest self.old entries bytes (D.state disk.old).images
            → IsSomeAnd (D.state disk.new).content
            (λ now. InDoubt self.new entries (entry.now ∷ []) now (D.state disk.new).images)) }

        // A stop at any moment of the call leaves the entries from before it, or those and this one.
        ensures any_moment { IfSome (D.state disk.old).content (λ bytes.
            (entries : List Entry) → AtRest self.old entries bytes (D.state disk.old).images
            → LeavesOnly (D.state disk.old) (D.state disk.new)
            (EitherText entries (entry.now ∷ []))) }

        ensures calls { (D.state disk.new).calls ≤ (D.state disk.old).calls + 4 }
        ensures cause { IsErrOf result AppendError.StoreFault
            → DiskFailed (D.state disk.old) (D.state disk.new) }
    {
        self.append_all(disk, std::slice::from_ref(entry))
    }

    /// Appends entries, all of them or none, by a write for each, one more for the gate of the first, and two syncs at most,
    /// and answers the place of the first. It takes no memory.
    ///
    /// All are written behind the closed gate, the gates of all but the first open; they count once that of the first is
    /// opened. `JournalFull` comes exactly where the place of the closed gate, the entries' bytes and one more closed gate
    /// together are over the limit; then the disk isn't touched. After `StoreFault` the journal is in doubt.
    pub fn append_all<D: Disk>(
        &mut self,
        disk: &mut D,
        entries: &[EntryText],
    ) -> Result<u64, AppendError>
        requires settled { self.old.doubt ≡ None }
        requires some { 0 < length entries.now }

        ensures full { IsErrOf result AppendError.JournalFull
            ↔ (self.old.limit < self.old.gate + length (sealed_all entries.now)) }
        ensures full_journal { IsErrOf result AppendError.JournalFull → self.new ≡ self.old }
        ensures full_disk { IsErrOf result AppendError.JournalFull → disk.new ≡ disk.old }

        ensures place { IfOk result (λ place. place ≡ self.old.gate) }
        ensures journal { OnOk result (self.new
            ≡ record self.old { gate = self.old.gate + length (entries_text entries.now) }) }
        ensures doubt { IsErrOf result AppendError.StoreFault
            → self.new ≡ record self.old { doubt = Some (length (entries_text entries.now)) } }

        // The entries, with the closed gate behind the last, are written where the closed gate stood; nothing else ever is.
        ensures content { OnOk result ((D.state disk.new).content
            ≡ option_map (λ bytes. written bytes self.old.gate (sealed_all entries.now))
            (D.state disk.old).content) }
        ensures torn { WhereTold (Tears self.old.gate (length (sealed_all entries.now)))
            (D.state disk.old).content (D.state disk.new).content }
        ensures tears { MayTear self.old.gate (length (sealed_all entries.now)) (D.state disk.old)
            (D.state disk.new) }

        // At `Ok` the content and each image have all of them.
        ensures acknowledged { OnOk result (IfSome (D.state disk.old).content (λ bytes.
            (before : List Entry) → AtRest self.old before bytes (D.state disk.old).images
            → IsSomeAnd (D.state disk.new).content
            (λ now. AtRest self.new (before ++ entries.now) now (D.state disk.new).images))) }

        // After `StoreFault` the content and each image have all of them, or none.
        ensures in_doubt { IsErrOf result AppendError.StoreFault
            → IfSome (D.state disk.old).content (λ bytes.
            (before : List Entry) → AtRest self.old before bytes (D.state disk.old).images
            → IsSomeAnd (D.state disk.new).content
            (λ now. InDoubt self.new before entries.now now (D.state disk.new).images)) }

        // A stop at any moment of the call leaves the entries from before it, or those and all of these.
        ensures any_moment { IfSome (D.state disk.old).content (λ bytes.
            (before : List Entry) → AtRest self.old before bytes (D.state disk.old).images
            → LeavesOnly (D.state disk.old) (D.state disk.new) (EitherText before entries.now)) }

        ensures calls { (D.state disk.new).calls
            ≤ (D.state disk.old).calls + length entries.now + 3 }
        ensures cause { IsErrOf result AppendError.StoreFault
            → DiskFailed (D.state disk.old) (D.state disk.new) }
    {
        let Some(count) = length_within(entries, self.room()) else {
            return Err(AppendError::JournalFull);
        };
        let place = self.gate;
        self.doubt = Some(count);
        stage(disk, place, entries)?;
        write_and_sync(disk, place, &[OPEN_GATE])?;
        self.gate = place + count;
        self.doubt = None;
        Ok(place)
    }

    /// Settles a doubt: syncs, and looks whether the gate before the entries in doubt reads open. It takes no memory.
    ///
    /// `Clean` comes exactly where there is no doubt; then the disk isn't touched. After `Failed` the doubt stays.
    pub fn mend<D: Disk>(&mut self, disk: &mut D) -> Result<Settled, Failed>
        ensures clean { (result ≡ Ok Settled.Clean) ↔ (self.old.doubt ≡ None) }
        ensures clean_disk { self.old.doubt ≡ None → disk.new ≡ disk.old }
        ensures place { IfOk result (IsKeptAt self.old.gate) }
        ensures journal { self.new ≡ journal_after self.old result }

        // They are kept, all of them, exactly where the gate reads open.
        ensures settled { IsSome self.old.doubt → IfOk result (λ settled.
            IfSome (D.state disk.old).content (λ bytes. SettledBy bytes self.old.gate settled)) }

        // Then the content and each image agree with the answer.
        ensures agrees { IfOk result (λ settled. IfSome (D.state disk.old).content (λ bytes.
            (entries more : List Entry) → InDoubt self.old entries more bytes
            (D.state disk.old).images
            → AtRest self.new (entries_after entries more settled) bytes
            (D.state disk.new).images)) }
        ensures still_in_doubt { OnErr result (IfSome (D.state disk.old).content (λ bytes.
            (entries more : List Entry) → InDoubt self.old entries more bytes
            (D.state disk.old).images
            → InDoubt self.new entries more bytes (D.state disk.new).images)) }

        ensures disk_stays { Looks (D.state disk.old) (D.state disk.new) }
        ensures calls { (D.state disk.new).calls ≤ (D.state disk.old).calls + 2 }
        ensures cause { OnErr result (DiskFailed (D.state disk.old) (D.state disk.new)) }
    {
        let Some(count) = self.doubt else {
            return Ok(Settled::Clean);
        };
        let place = self.gate;
        let is_open = settled_gate(disk, place)?;
        self.doubt = None;
        if is_open {
            self.gate = place + count;
            Ok(Settled::Kept { place })
        } else {
            Ok(Settled::Dropped)
        }
    }

    /// The journal whose closed gate stands at a place.
    pub(crate) fn behind(gate: u64, limit: u64) -> Journal
        ensures { result ≡ record { gate = gate; limit = limit; doubt = None } }
    {
        Journal {
            gate,
            limit,
            doubt: None,
        }
    }

    /// Where the closed gate stands: how many bytes header and entries have.
    pub fn gate(&self) -> u64
        ensures { result ≡ self.now.gate }
    {
        self.gate
    }

    /// How many bytes the limit leaves from the closed gate on.
    pub fn room(&self) -> u64
        ensures { result ≡ self.now.limit - self.now.gate }
    {
        self.limit.saturating_sub(self.gate)
    }
}

/// Syncs, and tells whether the gate at a place then reads open.
fn settled_gate<D: Disk>(disk: &mut D, place: u64) -> Result<bool, Failed>
    ensures open_gate { IfOk result
        (λ is_open. IfSome (D.state disk.old).content
        (λ bytes. IsTrue is_open ↔ ReadsOpen bytes place)) }
    ensures only { OnOk result (IfSome (D.state disk.old).content
        (λ bytes. Only bytes (D.state disk.new).images)) }
    ensures disk_stays { Looks (D.state disk.old) (D.state disk.new) }
    ensures calls { (D.state disk.new).calls ≤ (D.state disk.old).calls + 2 }
    ensures cause { OnErr result (DiskFailed (D.state disk.old) (D.state disk.new)) }
{
    disk.sync()?;
    reads_piece(disk, place, &[OPEN_GATE], &mut [CLOSED_GATE])
}
