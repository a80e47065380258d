//! Opening what a disk holds.
ghost use Rattle.std.specs.Prelude.{◌≡◌, ◌≢◌, ◌⊎◌, ◌+◌, ◌<◌, ◌≤◌, ◌^◌, ℕ, List, [], length, IfSome, IfOk, OnOk, OnErr, IfErr, IsErrOf, IsTrue, is_none};
ghost use Rattle.soc_edge.specs.Disk.{LeavesOnly, Looks, GoesOn, DiskFailed};
ghost use Rattle.soc_journal.specs.Entries.{Entry, IsEntryOf, second_version, head_size};
ghost use Rattle.soc_journal.specs.Text.{HasHeader};
ghost use Rattle.soc_journal.specs.Openings.{HasRead};
ghost use Rattle.soc_vault.specs.Openings.{entry_of, Opens, OpeningLeaves, StopsAt};
ghost use Rattle.soc_vault.specs.inner.Readings.{FindsNext, MovesBy, HasGivenAll};

use crate::recovery::{Found, Recover};
use soc_edge::Disk;
use soc_journal::{Journal, OpenError, Opening, ReadError, fault_is_one, text_is_one};
use std::alloc::Global;

/// Opens the journal that a disk holds, and gives its entries in order, of which one at a time is in memory. It makes an
/// empty journal on a disk of length 0, and turns a journal of the first version into one of the second. Over a disk that
/// reads ahead this is one pass in large reads.
///
/// A journal of more than `limit` bytes is opened too: the limit binds what is kept afterwards.
///
/// `NotOurs` comes where the disk doesn't begin as a journal does, `BadEntry` at the first place where neither an entry that
/// is taken nor the closed gate stands, and `StoreFault` only where the disk failed.
pub fn open<D: Disk, R: Recover>(
    alloc: Global,
    disk: &mut D,
    limit: u64,
    into: &mut R,
) -> Result<Journal, OpenError>
    requires { (start : ℕ) → R.was_given into.old start [] }
    ensures opens { IfOk result (λ journal.
        Opens (R.was_given into.new) limit (D.state disk.old) (D.state disk.new) journal) }
    ensures name_stays { R.name into.new ≡ R.name into.old }
    ensures not_ours { IsErrOf result OpenError.NotOurs
        → IfSome (D.state disk.old).content (λ bytes. (bytes ≢ []) × ¬ (HasHeader bytes)) }
    ensures bad_entry { (place : ℕ) → IsErrOf result (OpenError.BadEntry place)
        → IfSome (D.state disk.old).content
        (λ bytes. StopsAt R.was_given R.refuses into.new bytes place) }
    ensures any_moment { IfSome (D.state disk.old).content (λ bytes.
        LeavesOnly (D.state disk.old) (D.state disk.new) (OpeningLeaves (D.state disk.old).images bytes)) }
    ensures refused { IfErr result
        (λ error. error ≢ OpenError.StoreFault → IfSome (D.state disk.old).content (λ bytes.
        bytes ≢ [] → Looks (D.state disk.old) (D.state disk.new))) }
    ensures goes_on { GoesOn (D.state disk.old) (D.state disk.new) }
    ensures cause { IsErrOf result OpenError.StoreFault
        → DiskFailed (D.state disk.old) (D.state disk.new) }
{
    text_is_one();
    fault_is_one();
    let opening = Journal::open(disk, limit)?;
    let opening = give_all(alloc, disk, opening, into)?;
    Ok(opening.finish(disk)?)
}

// Gives each entry that an opening finds.
fn give_all<D: Disk, R: Recover>(
    alloc: Global,
    disk: &mut D,
    opening: Opening,
    into: &mut R,
) -> Result<Opening, OpenError>
    requires fresh { (start : ℕ) → R.was_given into.old start [] }
    requires reads { IfSome (D.state disk.old).content
        (λ bytes. HasRead opening [] bytes (D.state disk.old).images) }
    ensures given { IfOk result (λ all.
        HasGivenAll (R.was_given into.new) all (D.state disk.old).content
        (D.state disk.new).images) }
    ensures name_stays { R.name into.new ≡ R.name into.old }
    ensures ended { IfOk result (λ all. IsTrue all.ended) }
    ensures limit { IfOk result (λ all. all.limit ≡ opening.limit) }
    ensures bad_entry { (place : ℕ) → IsErrOf result (OpenError.BadEntry place)
        → IfSome (D.state disk.old).content
        (λ bytes. StopsAt R.was_given R.refuses into.new bytes place) }
    ensures no_other { IfErr result (λ error. error ≢ OpenError.NotOurs) }
    ensures looks { Looks (D.state disk.old) (D.state disk.new) }
    ensures cause { IsErrOf result OpenError.StoreFault
        → DiskFailed (D.state disk.old) (D.state disk.new) }
{
    let mut opening = opening;
    while let Some(found) = find_next(alloc, disk, &mut opening)? {
        into.recover(alloc, found)?;
    }
    Ok(opening)
}

// The next entry with its body.
fn find_next<D: Disk>(
    alloc: Global,
    disk: &mut D,
    opening: &mut Opening,
) -> Result<Option<Found>, OpenError>
    ensures finds { IfSome (D.state disk.old).content
        (λ bytes. (entries : List Entry)
        → HasRead opening.old entries bytes (D.state disk.old).images
        → FindsNext entries bytes (D.state disk.new).images result opening.new) }
    ensures moves { IfOk result (λ next. MovesBy opening.old next opening.new) }
    ensures counts { IfOk result (λ next.
        IfSome next (λ found. IsEntryOf second_version (entry_of found))) }
    ensures within { IfOk result (λ next.
        IfSome next (λ found. found.place + head_size + length found.body < 2 ^ 64)) }
    ensures opening { opening.new ≡ record opening.old
        { place = opening.new.place; ended = opening.new.ended } }
    ensures ended { IfOk result (λ next. opening.new.ended ≡ is_none next) }
    ensures bad_place { (place : ℕ) → IsErrOf result (OpenError.BadEntry place)
        → place ≡ opening.old.place }
    ensures no_other { IfErr result (λ error. error ≢ OpenError.NotOurs) }
    ensures looks { Looks (D.state disk.old) (D.state disk.new) }
    ensures cause { IsErrOf result OpenError.StoreFault
        → DiskFailed (D.state disk.old) (D.state disk.new) }
{
    let Some(mark) = opening.next(disk)? else {
        return Ok(None);
    };
    let body = match opening.body(alloc, disk, &mark) {
        Ok(body) => body,
        Err(error) => return Err(unread(error, mark.place)),
    };
    // A disk that tells nothing may give another length.
    if body.as_slice().len() != mark.length as usize {
        return Err(OpenError::BadEntry { place: mark.place });
    }
    Ok(Some(Found {
        place: mark.place,
        kind: mark.kind,
        body,
    }))
}

// Why an entry whose body isn't read isn't opened.
fn unread(error: ReadError, place: u64) -> OpenError
    ensures fault { (result ≡ OpenError.StoreFault) → (error ≡ ReadError.StoreFault) }
    ensures altered { (at : ℕ) → result ≡ OpenError.BadEntry at → (error ≡ ReadError.Altered)
        × (at ≡ place) }
    ensures no_other { result ≢ OpenError.NotOurs }
{
    match error {
        ReadError::StoreFault => OpenError::StoreFault,
        ReadError::Altered => OpenError::BadEntry { place },
        ReadError::NoMemory => OpenError::NoMemory,
    }
}
