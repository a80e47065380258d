//! Writes of a whole piece.
ghost use Rattle.std.specs.Prelude.{OnOk, OnErr};
ghost use Rattle.soc_edge.specs.Told.{Writes, WritesFront, WriteFailed};

use crate::{Failed, Sink};

/// Writes all of a piece. After `Failed` a front of it, which isn't all of it, was written.
pub fn write_all<K: Sink>(sink: &mut K, bytes: &[u8]) -> Result<(), Failed>
    ensures whole { OnOk result (Writes (K.told sink.old) (K.told sink.new) bytes.now) }
    ensures front { OnErr result (WritesFront (K.told sink.old) (K.told sink.new) bytes.now) }
    ensures cause { OnErr result (WriteFailed (K.told sink.old) (K.told sink.new)) }
{
    let mut at = 0;
    while at < bytes.len() {
        at += sink.write(&bytes[at..])?;
    }
    Ok(())
}
