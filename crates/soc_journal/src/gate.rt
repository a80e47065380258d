//! What stands on a disk where a gate is wanted.
ghost use Rattle.std.specs.Prelude.{◌≤◌, ◌+◌, drop, IfSome, IfOk, OnErr, IsTrue, ◌↔◌};
ghost use Rattle.soc_edge.specs.Disk.{Looks, DiskFailed};
ghost use Rattle.soc_journal.specs.Openings.{Counts};
ghost use Rattle.soc_journal.specs.inner.Gates.{IsFront, IsAtGate, OpenCounts};

use crate::format::{ENTRY_HEAD, MAX_BODY, OPEN_GATE, has_kind};
use soc_edge::{Disk, Failed};

/// What the first bytes from a gate on are.
#[derive(Drop)]
pub enum Front {
    /// A closed gate.
    Shut,
    /// No closed gate, and fewer bytes than an entry has before its body.
    Cut,
    /// The bytes of an entry before its body.
    Head { kind: u8, length: u32 },
}

/// What stands at a gate's place.
#[derive(Drop)]
pub enum AtGate {
    /// The open gate of an entry of a kind that the version has.
    Open { kind: u8, length: u32 },
    /// A closed gate.
    Closed,
    /// Neither.
    Bad,
}

/// What the first bytes from a gate on are, at most six of them.
fn front_of(bytes: &[u8]) -> Front
    ensures { IsFront bytes.now result }
{
    let [gate, behind @ ..] = bytes else {
        return Front::Cut;
    };
    if *gate != OPEN_GATE {
        return Front::Shut;
    }
    match behind {
        [kind, a, b, c, d, ..] => Front::Head {
            kind: *kind,
            length: u32::from_le_bytes([*a, *b, *c, *d]),
        },
        _ => Front::Cut,
    }
}

/// Reads what stands at a place, but no body.
fn front_at<D: Disk>(disk: &mut D, place: u64) -> Result<Front, Failed>
    ensures front { IfOk result (λ front.
        IfSome (D.state disk.old).content (λ bytes. IsFront (drop place bytes) front)) }
    ensures disk_stays { Looks (D.state disk.old) (D.state disk.new) }
    ensures calls { (D.state disk.new).calls ≤ (D.state disk.old).calls + 1 }
    ensures cause { OnErr result (DiskFailed (D.state disk.old) (D.state disk.new)) }
{
    let mut head = [0; ENTRY_HEAD];
    let count = disk.read_at(place, &mut head)?;
    Ok(front_of(&head[..count]))
}

/// Whether a kind and a length are those of an entry at a place, which ends at or before the end.
fn counts(version: u8, kind: u8, length: u32, place: u64, end: u64) -> bool
    ensures { IsTrue result ↔ Counts version kind length place end }
{
    has_kind(version, kind)
        && length <= MAX_BODY
        && place <= end
        && ENTRY_HEAD as u64 + length as u64 <= end - place
}

/// What stands at a place, where an entry counts only if it ends at or before the end.
pub fn at_gate<D: Disk>(disk: &mut D, version: u8, place: u64, end: u64) -> Result<AtGate, Failed>
    ensures found { IfOk result (λ found.
        IfSome (D.state disk.old).content
        (λ bytes. IsAtGate version place end (drop place bytes) found)) }
    ensures counts { IfOk result (λ found. OpenCounts version place end found) }
    ensures disk_stays { Looks (D.state disk.old) (D.state disk.new) }
    ensures calls { (D.state disk.new).calls ≤ (D.state disk.old).calls + 1 }
    ensures cause { OnErr result (DiskFailed (D.state disk.old) (D.state disk.new)) }
{
    Ok(match front_at(disk, place)? {
        Front::Shut => AtGate::Closed,
        Front::Cut => AtGate::Bad,
        Front::Head { kind, length } => {
            if counts(version, kind, length, place, end) {
                AtGate::Open { kind, length }
            } else {
                AtGate::Bad
            }
        }
    })
}
