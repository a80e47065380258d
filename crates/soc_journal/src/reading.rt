//! Reading what a journal holds.
ghost use Rattle.std.specs.Prelude.{◌≡◌, ◌≢◌, ◌+◌, ◌<◌, ◌≤◌, ◌^◌, ◌↔◌, length, IfSome, IfOk, OnOk, OnErr, IsErrOf, IsTrue, MatchResult, vec_len};
ghost use Rattle.std.specs.Int.{div_ceil};
ghost use Rattle.soc_edge.specs.Disk.{Looks, DiskFailed};
ghost use Rattle.soc_journal.specs.Entries.{Entry};
ghost use Rattle.soc_journal.specs.Bodies.{StandsBefore, ReadsFrom, GivesBody, piece_size};

use crate::error::ReadError;
use crate::format::{ENTRY_HEAD, SECOND_VERSION};
use crate::gate::{AtGate, at_gate};
use crate::journal::Journal;
use soc_base::Bytes;
use soc_edge::{Disk, Failed};
use std::alloc::{AllocError, Global};

/// How many bytes are compared at once.
const PIECE: usize = 65_536;

impl Journal {
    /// The body of the entry at a place. `Altered` comes exactly where no entry that ends at or before the closed gate
    /// begins there, and `StoreFault` only where the disk failed.
    pub fn read<D: Disk>(&self, alloc: Global, disk: &mut D, place: u64) -> Result<Bytes, ReadError>
        ensures body { IfSome (D.state disk.old).content (λ bytes.
            (entry : Entry) → StandsBefore bytes place self.now.gate entry
            → MatchResult result (λ body. body ≡ entry.body) (λ error. error ≢ ReadError.Altered)) }
        ensures found { OnOk result (IfSome (D.state disk.old).content (λ bytes.
            (entry : Entry) × StandsBefore bytes place self.now.gate entry)) }
        ensures disk_stays { Looks (D.state disk.old) (D.state disk.new) }
        ensures calls { (D.state disk.new).calls ≤ (D.state disk.old).calls + 2 }
        ensures cause { IsErrOf result ReadError.StoreFault
            → DiskFailed (D.state disk.old) (D.state disk.new) }
    {
        match at_gate(disk, SECOND_VERSION, place, self.gate())? {
            AtGate::Open { length, .. } => body_at(alloc, disk, place + ENTRY_HEAD as u64, length),
            AtGate::Closed => Err(ReadError::Altered),
            AtGate::Bad => Err(ReadError::Altered),
        }
    }

    /// Whether the disk reads as the text from a place on, by one call of the disk and one for each 64 KiB begun. It takes
    /// no memory.
    pub fn holds<D: Disk>(&self, disk: &mut D, place: u64, text: &[u8]) -> Result<bool, Failed>
        ensures holds { IfOk result (λ holds.
            IfSome (D.state disk.old).content
            (λ bytes. IsTrue holds ↔ ReadsFrom bytes place text.now)) }
        ensures disk_stays { Looks (D.state disk.old) (D.state disk.new) }
        ensures calls { (D.state disk.new).calls
            ≤ (D.state disk.old).calls + 1 + div_ceil (length text.now) piece_size }
        ensures cause { OnErr result (DiskFailed (D.state disk.old) (D.state disk.new)) }
    {
        let length = disk.len()?;
        if length.saturating_sub(place) < text.len() as u64 {
            return Ok(false);
        }
        reads_from(disk, place, text)
    }
}

/// The body of so many bytes at a place.
pub(crate) fn body_at<D: Disk>(
    alloc: Global,
    disk: &mut D,
    place: u64,
    length: u32,
) -> Result<Bytes, ReadError>
    ensures gives { IfSome (D.state disk.old).content
        (λ bytes. GivesBody bytes place length result) }
    ensures disk_stays { Looks (D.state disk.old) (D.state disk.new) }
    ensures calls { (D.state disk.new).calls ≤ (D.state disk.old).calls + 1 }
    ensures cause { IsErrOf result ReadError.StoreFault
        → DiskFailed (D.state disk.old) (D.state disk.new) }
{
    let mut body = zeros(alloc, length as usize)?;
    let count = disk.read_at(place, body.as_mut_slice())?;
    if count < body.len() {
        return Err(ReadError::Altered);
    }
    Ok(Bytes::from(body))
}

fn zeros(alloc: Global, length: usize) -> Result<Vec<u8>, AllocError>
    ensures { IfOk result (λ bytes. vec_len bytes ≡ length) }
{
    vec![in alloc; 0; length]
}

/// Whether the disk reads as the text from a place on, compared piece by piece.
fn reads_from<D: Disk>(disk: &mut D, place: u64, text: &[u8]) -> Result<bool, Failed>
    requires { place + length text.now < 2 ^ 64 }
    ensures holds { IfOk result (λ holds.
        IfSome (D.state disk.old).content
        (λ bytes. IsTrue holds ↔ ReadsFrom bytes place text.now)) }
    ensures disk_stays { Looks (D.state disk.old) (D.state disk.new) }
    ensures calls { (D.state disk.new).calls
        ≤ (D.state disk.old).calls + div_ceil (length text.now) piece_size }
    ensures cause { OnErr result (DiskFailed (D.state disk.old) (D.state disk.new)) }
{
    let mut buffer = [0; PIECE];
    let mut place = place;
    let mut rest = text;
    while !rest.is_empty() {
        let (piece, behind) = rest.split_at(rest.len().min(PIECE));
        if !reads_piece(disk, place, piece, &mut buffer[..piece.len()])? {
            return Ok(false);
        }
        place += piece.len() as u64;
        rest = behind;
    }
    Ok(true)
}

/// Whether the disk reads as the piece from a place on, which is read into a buffer of its length.
pub(crate) fn reads_piece<D: Disk>(
    disk: &mut D,
    place: u64,
    piece: &[u8],
    into: &mut [u8],
) -> Result<bool, Failed>
    requires { length into.old ≡ length piece.now }
    ensures holds { IfOk result (λ holds.
        IfSome (D.state disk.old).content
        (λ bytes. IsTrue holds ↔ ReadsFrom bytes place piece.now)) }
    ensures disk_stays { Looks (D.state disk.old) (D.state disk.new) }
    ensures calls { (D.state disk.new).calls ≤ (D.state disk.old).calls + 1 }
    ensures cause { OnErr result (DiskFailed (D.state disk.old) (D.state disk.new)) }
{
    let count = disk.read_at(place, into)?;
    Ok(&into[..count] == piece)
}
