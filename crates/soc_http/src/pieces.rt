//! Texts in several pieces, written in as few writes as a small buffer allows.
ghost use Rattle.std.specs.Prelude.{◌≡◌, ◌<◌, ◌≤◌, ◌+◌, ◌++◌, [], List, ℕ, Option, length, OnOk, OnErr};
ghost use Rattle.std.specs.Bool.{OnTrue, OnFalse};
ghost use Rattle.soc_edge.specs.Told.{Told, Writes, WritesFront, WriteFailed};
ghost use Rattle.soc_http.specs.inner.Pieces.{pieces_text, IsSent};

use crate::reply::WriteFault;
use soc_edge::{Sink, write_all};
use std::marker::Model;

const ROOM: usize = 1024;

/// Bytes that wait for a larger write.
#[derive(Drop)]
struct Pending {
    bytes: [u8; ROOM],
    len: usize,
}

impl Model for Pending {
    ghost use Rattle.std.specs.Prelude.{List, ℕ, ◌≤◌, take};

    ghost Value = { List ℕ };

    ghost view = { λ p. take p.len p.bytes };

    ghost invariant = { λ p. p.len ≤ 1024 };
}

impl Pending {
    fn new() -> Pending
        ensures { result ≡ [] }
    {
        Pending {
            bytes: [0; ROOM],
            len: 0,
        }
    }

    /// Adds the piece, where there is room for it, and says whether there was.
    fn add(&mut self, piece: &[u8]) -> bool
        ensures added { OnTrue result (self.new ≡ self.old ++ piece.now) }
        ensures full { OnFalse result (1024 < length self.old + length piece.now) }
        ensures stays { OnFalse result (self.new ≡ self.old) }
    {
        if piece.len() > ROOM - self.len {
            return false;
        }
        let end = self.len + piece.len();
        self.bytes[self.len..end].copy_from_slice(piece);
        self.len = end;
        true
    }

    fn clear(&mut self)
        ensures { self.new ≡ [] }
    {
        self.len = 0;
    }

    fn as_slice(&self) -> &[u8]
        ensures { result.now ≡ self.now }
    {
        &self.bytes[..self.len]
    }
}

fn flush<K: Sink>(sink: &mut K, pending: &mut Pending) -> Result<(), WriteFault>
    ensures written { OnOk result (Writes (K.told sink.old) (K.told sink.new) pending.old) }
    ensures cleared { OnOk result (pending.new ≡ []) }
    ensures front { OnErr result (WritesFront (K.told sink.old) (K.told sink.new) pending.old) }
    ensures cause { OnErr result (WriteFailed (K.told sink.old) (K.told sink.new)) }
{
    write_all(sink, pending.as_slice())?;
    pending.clear();
    Ok(())
}

fn put<K: Sink>(sink: &mut K, pending: &mut Pending, piece: &[u8]) -> Result<(), WriteFault>
    ensures sent { OnOk result ((start : Told) (done : List ℕ)
        → IsSent start (K.told sink.old) pending.old done
        → IsSent start (K.told sink.new) pending.new (done ++ piece.now)) }
    ensures front { OnErr result ((start : Told) (done : List ℕ)
        → IsSent start (K.told sink.old) pending.old done
        → WritesFront start (K.told sink.new) (done ++ piece.now)) }
    ensures cause { OnErr result (WriteFailed (K.told sink.old) (K.told sink.new)) }
{
    if pending.add(piece) {
        return Ok(());
    }
    flush(sink, pending)?;
    if pending.add(piece) {
        return Ok(());
    }
    write_all(sink, piece)?;
    Ok(())
}

/// Writes the pieces, one behind the other.
pub(crate) fn write_pieces<K: Sink>(sink: &mut K, pieces: &[&[u8]]) -> Result<(), WriteFault>
    ensures written { OnOk result (Writes (K.told sink.old) (K.told sink.new)
        (pieces_text pieces.now)) }
    ensures front { OnErr result (WritesFront (K.told sink.old) (K.told sink.new)
        (pieces_text pieces.now)) }
    ensures cause { OnErr result (WriteFailed (K.told sink.old) (K.told sink.new)) }
{
    let mut pending = Pending::new();
    for piece in pieces {
        put(sink, &mut pending, piece)?;
    }
    flush(sink, &mut pending)
}
