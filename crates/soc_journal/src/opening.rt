//! Opening a journal: its entries in order, and then the journal itself.
ghost use Rattle.std.specs.Prelude.{◌≡◌, ◌≢◌, ◌+◌, ◌<◌, ◌≤◌, ◌^◌, ◌⊎◌, ℕ, List, Some, None, [], ◌∷◌, length, IfSome, IsSomeAnd, IfOk, OnOk, OnErr, IfErr, IsErrOf, IsTrue, is_none, MatchOption};
ghost use Rattle.std.specs.Option.{option_map};
ghost use Rattle.soc_edge.specs.Disk.{written, Tears, WhereTold, Only, LeavesOnly, Looks, MayTear, DiskFailed};
ghost use Rattle.soc_journal.specs.Entries.{Entry, first_version, second_version, version_place, first_gate, head_size, header};
ghost use Rattle.soc_journal.specs.Text.{HasHeader, version_of, empty_journal, JournalText, StandsAt};
ghost use Rattle.soc_journal.specs.States.{AtRest};
ghost use Rattle.soc_journal.specs.Openings.{Counts, HasRead, HasReadAll, Finds};
ghost use Rattle.soc_journal.specs.Bodies.{GivesBody};

use crate::error::{OpenError, ReadError};
use crate::format::{ENTRY_HEAD, FIRST_GATE, FIRST_VERSION, MAGIC, SECOND_VERSION, VERSION_PLACE};
use crate::gate::{AtGate, at_gate};
use crate::journal::Journal;
use crate::mark::Mark;
use crate::reading::body_at;
use crate::writing::write_and_sync;
use soc_base::Bytes;
use soc_edge::{Disk, Failed};
use std::alloc::Global;
use std::marker::Model;

/// A journal that is being opened. It goes over the entries one by one and reads no body by itself.
///
/// What is said of a disk's content holds where the disk tells it, and where the disk is the one that this opening's last
/// call has left.
#[derive(Drop)]
pub struct Opening {
    place: u64,
    length: u64,
    version: u8,
    limit: u64,
    ended: bool,
}

impl Model for Opening {
    ghost use Rattle.soc_journal.specs.Openings.{OpeningState};

    ghost Value = { OpeningState };

    ghost view = { λ o. record {
      place = o.place;
      length = o.length;
      version = o.version;
      limit =
          o.limit;
      ended = o.ended;
    } };
}

impl Journal {
    /// Begins to open the journal of at most `limit` bytes that a disk holds. It syncs first, and makes an empty journal on
    /// a disk of length 0. It takes no memory.
    ///
    /// `NotOurs` comes exactly where the disk doesn't begin with `SOCJ000` and one more byte, and `StoreFault` only where
    /// the disk failed.
    pub fn open<D: Disk>(disk: &mut D, limit: u64) -> Result<Opening, OpenError>
        ensures opened { IfOk result (λ opening. IfSome (D.state disk.new).content (λ bytes.
            HasRead opening [] bytes (D.state disk.new).images)) }
        ensures limit { IfOk result (λ opening. opening.limit ≡ limit) }

        ensures ours { OnOk result (IfSome (D.state disk.old).content
            (λ bytes. (bytes ≡ []) ⊎ HasHeader bytes)) }
        ensures not_ours { IsErrOf result OpenError.NotOurs
            → IfSome (D.state disk.old).content (λ bytes.
            (bytes ≢ []) × ¬ (HasHeader bytes)) }
        ensures no_other { IfErr result
            (λ error. (error ≡ OpenError.NotOurs) ⊎ (error ≡ OpenError.StoreFault)) }

        ensures created { OnOk result ((D.state disk.old).content ≡ Some []
            → (D.state disk.new).content ≡ Some empty_journal) }
        ensures disk_stays { IfSome (D.state disk.old).content (λ bytes.
            bytes ≢ [] → Looks (D.state disk.old) (D.state disk.new)) }

        // Nothing but an empty journal is written, whole or torn.
        ensures torn { WhereTold (Tears 0 (length empty_journal)) (D.state disk.old).content
            (D.state disk.new).content }
        ensures tears { MayTear 0 (length empty_journal) (D.state disk.old) (D.state disk.new) }

        ensures calls { (D.state disk.new).calls ≤ (D.state disk.old).calls + 4 }
        ensures cause { IsErrOf result OpenError.StoreFault
            → DiskFailed (D.state disk.old) (D.state disk.new) }
    {
        let length = synced_len(disk)?;
        if length == 0 {
            Journal::create(disk, limit)?;
            return Ok(Opening {
                place: FIRST_GATE,
                length: FIRST_GATE + 1,
                version: SECOND_VERSION,
                limit,
                ended: false,
            });
        }
        let Some(version) = version_at(disk)? else {
            return Err(OpenError::NotOurs);
        };
        Ok(Opening {
            place: FIRST_GATE,
            length,
            version,
            limit,
            ended: false,
        })
    }
}

impl Opening {
    /// The next entry, in order, and `None` behind the last, from then on. It reads no body and takes no memory.
    ///
    /// `BadEntry` names the first place where neither an entry nor a closed gate stands. After an error the opening is as
    /// it was.
    pub fn next<D: Disk>(&mut self, disk: &mut D) -> Result<Option<Mark>, OpenError>
        ensures finds { IfSome (D.state disk.old).content (λ bytes.
            (entries : List Entry) → HasRead self.old entries bytes (D.state disk.old).images
            → Finds entries bytes (D.state disk.new).images result self.new) }
        ensures handed_out { IfOk result (λ next. IfSome next (λ mark.
            Counts self.new.version mark.kind mark.length mark.place self.new.length)) }
        ensures within { IfOk result (λ next.
            IfSome next (λ mark. mark.place + head_size + mark.length < 2 ^ 64)) }

        ensures moves { IfOk result (λ next.
            MatchOption next (self.new.place ≡ self.old.place) (λ mark.
            (mark.place ≡ self.old.place) × (self.new.place
            ≡ self.old.place + head_size + mark.length))) }

        ensures opening { self.new ≡ record self.old
            { place = self.new.place; ended = self.new.ended } }
        ensures ended { IfOk result (λ next. self.new.ended ≡ is_none next) }
        ensures refused { OnErr result (self.new ≡ self.old) }
        ensures bad_place { (place : ℕ) → IsErrOf result (OpenError.BadEntry place)
            → place ≡ self.old.place }
        ensures no_other { IfErr result
            (λ error. (error ≢ OpenError.NotOurs) × (error ≢ OpenError.NoMemory)) }

        ensures disk_stays { Looks (D.state disk.old) (D.state disk.new) }
        ensures calls { (D.state disk.new).calls ≤ (D.state disk.old).calls + 1 }
        ensures cause { IsErrOf result OpenError.StoreFault
            → DiskFailed (D.state disk.old) (D.state disk.new) }
    {
        let place = self.place;
        match at_gate(disk, self.version, place, self.length)? {
            AtGate::Open { kind, length } => {
                self.place = place + ENTRY_HEAD as u64 + length as u64;
                self.ended = false;
                Ok(Some(Mark {
                    place,
                    kind,
                    length,
                }))
            }
            AtGate::Closed => {
                self.ended = true;
                Ok(None)
            }
            AtGate::Bad => Err(OpenError::BadEntry { place }),
        }
    }

    /// The body of an entry whose mark this opening has handed out. `Altered` comes exactly where the disk gives fewer
    /// bytes than the body has, and `StoreFault` only where the disk failed.
    pub fn body<D: Disk>(
        &self,
        alloc: Global,
        disk: &mut D,
        mark: &Mark,
    ) -> Result<Bytes, ReadError>
        requires handed_out { mark.now.place + head_size + mark.now.length ≤ self.now.length }
        ensures body { IfSome (D.state disk.old).content (λ bytes.
            (entry : Entry) → StandsAt bytes mark.now.place entry
            → mark.now.length ≡ length entry.body
            → IfOk result (λ body. body ≡ entry.body)) }
        ensures gives { IfSome (D.state disk.old).content
            (λ bytes. GivesBody bytes (mark.now.place + head_size) mark.now.length result) }
        ensures disk_stays { Looks (D.state disk.old) (D.state disk.new) }
        ensures calls { (D.state disk.new).calls ≤ (D.state disk.old).calls + 1 }
        ensures cause { IsErrOf result ReadError.StoreFault
            → DiskFailed (D.state disk.old) (D.state disk.new) }
    {
        prove!(mark.place <= self.length);
        body_at(alloc, disk, mark.place + ENTRY_HEAD as u64, mark.length)
    }

    /// The journal, once `next` has answered `None`. One of the first version becomes one of the second, by a write of
    /// its version byte alone and a sync; at any other the disk isn't touched. It takes no memory.
    pub fn finish<D: Disk>(self, disk: &mut D) -> Result<Journal, Failed>
        requires { IsTrue self.ended }
        ensures journal { IfOk result (λ journal. journal
            ≡ record { gate = self.place; limit = self.limit; doubt = None }) }
        ensures at_rest { IfSome (D.state disk.old).content (λ bytes.
            (entries : List Entry) → HasReadAll self entries bytes (D.state disk.old).images
            → IfOk result (λ journal. IsSomeAnd (D.state disk.new).content
            (λ now. AtRest journal entries now (D.state disk.new).images))) }

        // The entries are the same in each image during and after the call, also where it fails, and so are those that the
        // disk reads as.
        ensures any_moment { IfSome (D.state disk.old).content (λ bytes.
            (entries : List Entry) → HasReadAll self entries bytes (D.state disk.old).images
            → LeavesOnly (D.state disk.old) (D.state disk.new) (JournalText entries)) }
        ensures stands { IfSome (D.state disk.old).content (λ bytes.
            (entries : List Entry) → HasReadAll self entries bytes (D.state disk.old).images
            → IsSomeAnd (D.state disk.new).content (JournalText entries)) }

        // Nothing but the version byte of a journal of the first version is written.
        ensures migrated { self.version ≡ first_version → OnOk result ((D.state disk.new).content
            ≡ option_map (λ bytes. written bytes version_place (second_version ∷ []))
            (D.state disk.old).content) }
        ensures untouched { self.version ≢ first_version → disk.new ≡ disk.old }
        ensures torn { WhereTold (Tears version_place 1) (D.state disk.old).content
            (D.state disk.new).content }
        ensures tears { MayTear version_place 1 (D.state disk.old) (D.state disk.new) }

        ensures calls { (D.state disk.new).calls ≤ (D.state disk.old).calls + 2 }
        ensures cause { OnErr result (DiskFailed (D.state disk.old) (D.state disk.new)) }
    {
        let journal = Journal::behind(self.place, self.limit);
        if self.version != FIRST_VERSION {
            return Ok(journal);
        }
        write_and_sync(disk, VERSION_PLACE, &[SECOND_VERSION])?;
        Ok(journal)
    }
}

/// Syncs the disk, and answers its length.
fn synced_len<D: Disk>(disk: &mut D) -> Result<u64, Failed>
    ensures count { IfOk result (λ n.
        IfSome (D.state disk.old).content (λ bytes. n ≡ length bytes)) }
    ensures only { OnOk result (IfSome (D.state disk.old).content
        (λ bytes. Only bytes (D.state disk.new).images)) }
    ensures disk_stays { Looks (D.state disk.old) (D.state disk.new) }
    ensures calls { (D.state disk.new).calls ≤ (D.state disk.old).calls + 2 }
    ensures cause { OnErr result (DiskFailed (D.state disk.old) (D.state disk.new)) }
{
    disk.sync()?;
    disk.len()
}

/// The version byte, where the disk begins as a journal does.
fn version_at<D: Disk>(disk: &mut D) -> Result<Option<u8>, Failed>
    ensures version { IfOk result (λ version. IfSome (D.state disk.old).content (λ bytes.
        MatchOption version (¬ (HasHeader bytes))
        (λ v. HasHeader bytes × (v ≡ version_of bytes)))) }
    ensures disk_stays { Looks (D.state disk.old) (D.state disk.new) }
    ensures calls { (D.state disk.new).calls ≤ (D.state disk.old).calls + 1 }
    ensures cause { OnErr result (DiskFailed (D.state disk.old) (D.state disk.new)) }
{
    let mut front = [0; 8];
    let count = disk.read_at(0, &mut front)?;
    Ok(version_in(&front[..count]))
}

/// The version byte in the first eight bytes.
fn version_in(front: &[u8]) -> Option<u8>
    requires { length front.now ≤ first_gate }
    ensures { MatchOption result (¬ (HasHeader front.now)) (λ v. front.now ≡ header v) }
{
    let (magic, version) = front.split_at_checked(MAGIC.len())?;
    if magic == MAGIC.as_slice() {
        version.first().copied()
    } else {
        None
    }
}
