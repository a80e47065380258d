//! The lent disk and the journal on it.
ghost use Rattle.std.specs.Prelude.{◌≡◌, ◌≢◌, ◌+◌, ◌-◌, ◌<◌, ◌≤◌, ◌↔◌, ℕ, List, Some, None, [], ◌∷◌, ◌++◌, length, take, drop, IsSome, IfOk, IfSome, OnOk, OnErr, Ok, IsErrOf, IsTrue, MatchResult};
ghost use Rattle.std.specs.Int.{div_ceil};
ghost use Rattle.soc_edge.specs.Disk.{LeavesOnly, Looks, GoesOn, DiskFailed};
ghost use Rattle.soc_journal.specs.Bodies.{ReadsFrom, piece_size};
ghost use Rattle.soc_journal.specs.Entries.{Entry, entry_text, entries_text, sealed_all, beside_body, head_size};
ghost use Rattle.soc_journal.specs.States.{IsKeptAt, journal_after};
ghost use Rattle.soc_vault.specs.Vaults.{Means, StandsFor, IsAt, GivesEntry, settled_entries};

use soc_base::Bytes;
use soc_edge::{Disk, Failed};
use soc_journal::{AppendError, EntryText, Journal, ReadError, Settled, entry_is_one};
use std::alloc::Global;

/// A journal and the disk that it stands on.
///
/// What is said of its entries holds where the disk tells its content.
#[derive(Drop)]
pub struct Vault<'a, D: Disk> {
    disk: &'a mut D,
    journal: Journal,
}

impl<'a, D: Disk> Vault<'a, D> {
    /// A vault over the journal that was opened on this disk.
    pub fn new(disk: &'a mut D, journal: Journal) -> Vault<'a, D>
        ensures same_disk { result.disk.ghost_name ≡ disk.entry.ghost_name }
        ensures disk { result.disk.now ≡ disk.old }
        ensures journal { result.journal ≡ journal }
    {
        Vault { disk, journal }
    }

    /// Whether a write of entries failed and isn't settled.
    pub fn is_in_doubt(&self) -> bool
        ensures { IsTrue result ↔ IsSome self.now.journal.doubt }
    {
        self.journal.in_doubt()
    }

    /// How many bytes the journal's header and entries have.
    pub fn size(&self) -> u64
        ensures { result ≡ self.now.journal.gate }
    {
        self.journal.gate()
    }

    /// How many bytes the limit leaves from the closed gate on.
    pub fn room(&self) -> u64
        ensures { result ≡ self.now.journal.limit - self.now.journal.gate }
    {
        self.journal.room()
    }

    /// Settles a doubt, by two calls of the disk: then the entries in doubt are kept, from a place on, or all are dropped.
    /// Without a doubt it does nothing.
    ///
    /// `Clean` comes exactly where there is no doubt. After `Failed` the doubt stays.
    pub fn settle(&mut self) -> Result<Settled, Failed>
        ensures same_disk { self.new.disk.ghost_name ≡ self.old.disk.ghost_name }
        ensures clean { (result ≡ Ok Settled.Clean) ↔ (self.old.journal.doubt ≡ None) }
        ensures clean_disk { self.old.journal.doubt ≡ None → self.new.disk.now ≡ self.old.disk.now }
        ensures place { IfOk result (IsKeptAt self.old.journal.gate) }
        ensures journal { self.new.journal ≡ journal_after self.old.journal result }
        ensures settled { IfOk result (λ settled. (entries : List Entry) (doubt : List Entry)
            → Means (D.state self.old.disk.now) self.old.journal entries doubt
            → Means (D.state self.new.disk.now) self.new.journal
            (settled_entries entries doubt settled) []) }
        ensures still_in_doubt { OnErr result ((entries : List Entry) (doubt : List Entry)
            → Means (D.state self.old.disk.now) self.old.journal entries doubt
            → Means (D.state self.new.disk.now) self.new.journal entries doubt) }
        ensures disk_stays { Looks (D.state self.old.disk.now) (D.state self.new.disk.now) }
        ensures calls { (D.state self.new.disk.now).calls ≤ (D.state self.old.disk.now).calls + 2 }
        ensures cause { OnErr result (DiskFailed (D.state self.old.disk.now)
            (D.state self.new.disk.now)) }
    {
        self.journal.mend(self.disk)
    }

    /// Keeps an entry behind all others, by two writes and two syncs at most, and answers its place. It takes no memory.
    ///
    /// `JournalFull` comes exactly where the closed gate's place, 7 and the body's length together are over the limit; then
    /// nothing is done. After `StoreFault` the entry is in doubt.
    pub fn keep(&mut self, entry: &EntryText) -> Result<u64, AppendError>
        requires { self.old.journal.doubt ≡ None }
        ensures same_disk { self.new.disk.ghost_name ≡ self.old.disk.ghost_name }
        ensures full { IsErrOf result AppendError.JournalFull
            ↔ (self.old.journal.limit < self.old.journal.gate + beside_body + length entry.now.body) }
        ensures full_journal { IsErrOf result AppendError.JournalFull
            → self.new.journal ≡ self.old.journal }
        ensures full_disk { IsErrOf result AppendError.JournalFull
            → self.new.disk.now ≡ self.old.disk.now }
        ensures place { IfOk result (λ place. place ≡ self.old.journal.gate) }
        ensures journal { OnOk result (self.new.journal
            ≡ record self.old.journal {
              gate = self.old.journal.gate + length
                  (entry_text entry.now);
            }) }
        ensures doubt { IsErrOf result AppendError.StoreFault → self.new.journal
            ≡ record self.old.journal { doubt = Some (length (entry_text entry.now)) } }

        // It stands behind the entries, acknowledged: each image that a stop may leave has it.
        ensures kept { OnOk result ((entries : List Entry)
            → Means (D.state self.old.disk.now) self.old.journal entries []
            → Means (D.state self.new.disk.now) self.new.journal (entries ++ entry.now ∷ []) []) }
        ensures in_doubt { IsErrOf result AppendError.StoreFault → (entries : List Entry)
            → Means (D.state self.old.disk.now) self.old.journal entries []
            → Means (D.state self.new.disk.now) self.new.journal entries (entry.now ∷ []) }

        // A stop at any moment of the call leaves the entries from before it, or those and this one.
        ensures any_moment { (entries : List Entry)
            → Means (D.state self.old.disk.now) self.old.journal entries []
            → LeavesOnly (D.state self.old.disk.now) (D.state self.new.disk.now)
            (StandsFor entries (entry.now ∷ [])) }
        ensures goes_on { GoesOn (D.state self.old.disk.now) (D.state self.new.disk.now) }
        ensures calls { (D.state self.new.disk.now).calls ≤ (D.state self.old.disk.now).calls + 4 }
        ensures cause { IsErrOf result AppendError.StoreFault
            → DiskFailed (D.state self.old.disk.now) (D.state self.new.disk.now) }
    {
        self.journal.append(self.disk, entry)
    }

    /// Keeps entries behind all others, all of them or none, by a write for each, one more and two syncs at most, and answers
    /// the place of the first. It takes no memory.
    ///
    /// `JournalFull` comes exactly where the closed gate's place, the entries' bytes and one more closed gate together are
    /// over the limit; then nothing is done. After `StoreFault` the entries are in doubt.
    pub fn keep_all(&mut self, entries: &[EntryText]) -> Result<u64, AppendError>
        requires settled { self.old.journal.doubt ≡ None }
        requires some { 0 < length entries.now }
        ensures same_disk { self.new.disk.ghost_name ≡ self.old.disk.ghost_name }
        ensures full { IsErrOf result AppendError.JournalFull
            ↔ (self.old.journal.limit < self.old.journal.gate + length (sealed_all entries.now)) }
        ensures full_journal { IsErrOf result AppendError.JournalFull
            → self.new.journal ≡ self.old.journal }
        ensures full_disk { IsErrOf result AppendError.JournalFull
            → self.new.disk.now ≡ self.old.disk.now }
        ensures place { IfOk result (λ place. place ≡ self.old.journal.gate) }
        ensures journal { OnOk result (self.new.journal
            ≡ record self.old.journal {
              gate = self.old.journal.gate + length
                  (entries_text entries.now);
            }) }
        ensures doubt { IsErrOf result AppendError.StoreFault → self.new.journal
            ≡ record self.old.journal { doubt = Some (length (entries_text entries.now)) } }

        // They stand behind the others, acknowledged: each image that a stop may leave has all of them.
        ensures kept { OnOk result ((before : List Entry)
            → Means (D.state self.old.disk.now) self.old.journal before []
            → Means (D.state self.new.disk.now) self.new.journal (before ++ entries.now) []) }
        ensures in_doubt { IsErrOf result AppendError.StoreFault → (before : List Entry)
            → Means (D.state self.old.disk.now) self.old.journal before []
            → Means (D.state self.new.disk.now) self.new.journal before entries.now }

        // A stop at any moment of the call leaves the entries from before it, or those and all of these.
        ensures any_moment { (before : List Entry)
            → Means (D.state self.old.disk.now) self.old.journal before []
            → LeavesOnly (D.state self.old.disk.now) (D.state self.new.disk.now)
            (StandsFor before entries.now) }
        ensures goes_on { GoesOn (D.state self.old.disk.now) (D.state self.new.disk.now) }
        ensures calls { (D.state self.new.disk.now).calls
            ≤ (D.state self.old.disk.now).calls + length entries.now + 3 }
        ensures cause { IsErrOf result AppendError.StoreFault
            → DiskFailed (D.state self.old.disk.now) (D.state self.new.disk.now) }
    {
        self.journal.append_all(self.disk, entries)
    }

    /// The body of the entry at a place, by two calls of the disk. `Altered` comes exactly where no entry that ends at or
    /// before the closed gate begins there, and `StoreFault` only where the disk failed.
    ///
    /// A place inside a body may read as an entry, too.
    pub fn read(&mut self, alloc: Global, place: u64) -> Result<Bytes, ReadError>
        ensures same_disk { self.new.disk.ghost_name ≡ self.old.disk.ghost_name }
        ensures journal_stays { self.new.journal ≡ self.old.journal }
        ensures body { (entries : List Entry) (doubt : List Entry) (entry : Entry)
            → Means (D.state self.old.disk.now) self.old.journal entries doubt
            → IsAt entries place entry
            → MatchResult result (λ body. body ≡ entry.body) (λ error. error ≢ ReadError.Altered) }
        ensures found { IfSome (D.state self.old.disk.now).content
            (λ bytes. GivesEntry bytes place self.old.journal.gate result) }
        ensures entries_stay { (entries : List Entry) (doubt : List Entry)
            → Means (D.state self.old.disk.now) self.old.journal entries doubt
            → Means (D.state self.new.disk.now) self.new.journal entries doubt }
        ensures disk_stays { Looks (D.state self.old.disk.now) (D.state self.new.disk.now) }
        ensures calls { (D.state self.new.disk.now).calls ≤ (D.state self.old.disk.now).calls + 2 }
        ensures cause { IsErrOf result ReadError.StoreFault
            → DiskFailed (D.state self.old.disk.now) (D.state self.new.disk.now) }
    {
        entry_is_one();
        self.journal.read(alloc, self.disk, place)
    }

    /// Whether the disk reads as a text from a place on, as an entry's body from some byte of it on. It takes no memory.
    pub fn holds(&mut self, place: u64, text: &[u8]) -> Result<bool, Failed>
        ensures same_disk { self.new.disk.ghost_name ≡ self.old.disk.ghost_name }
        ensures journal_stays { self.new.journal ≡ self.old.journal }
        ensures reads { IfOk result (λ holds. IfSome (D.state self.old.disk.now).content (λ bytes.
            IsTrue holds ↔ ReadsFrom bytes place text.now)) }

        // Behind the body may stand anything.
        ensures holds { IfOk result (λ holds.
            (entries : List Entry) (doubt : List Entry) (entry : Entry) (at skip : ℕ)
            → Means (D.state self.old.disk.now) self.old.journal entries doubt
            → IsAt entries at entry
            → place ≡ at + (head_size + skip) → skip ≤ length entry.body
            → (more : List ℕ) × (IsTrue holds
            ↔ (take (length text.now) (drop skip entry.body ++ more) ≡ text.now))) }
        ensures entries_stay { (entries : List Entry) (doubt : List Entry)
            → Means (D.state self.old.disk.now) self.old.journal entries doubt
            → Means (D.state self.new.disk.now) self.new.journal entries doubt }
        ensures disk_stays { Looks (D.state self.old.disk.now) (D.state self.new.disk.now) }
        ensures calls { (D.state self.new.disk.now).calls
            ≤ (D.state self.old.disk.now).calls + 1 + div_ceil (length text.now) piece_size }
        ensures cause { OnErr result (DiskFailed (D.state self.old.disk.now)
            (D.state self.new.disk.now)) }
    {
        entry_is_one();
        self.journal.holds(self.disk, place, text)
    }

    /// The disk that was lent.
    pub fn into_disk(self) -> &'a mut D
        ensures same_disk { result.ghost_name ≡ self.entry.disk.ghost_name }
        ensures disk { result.now ≡ self.entry.disk.now }
    {
        let Vault { disk, .. } = self;
        disk
    }
}
