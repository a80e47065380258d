//! What is read and written of a connection, in memory.
ghost use Rattle.std.specs.Prelude.{◌≡◌, ◌≤◌, ◌<◌, ◌-◌, ◌↔◌, ◌⊎◌, Some, min, [], length, take, IfOk, OnErr, IsErr, IsTrue};
ghost use Rattle.std.specs.Io.KnownBytes.{IsAtEnd};
ghost use Rattle.soc_edge.specs.Calls.{is_due, after_call};
ghost use Rattle.soc_edge.specs.Told.{Reads, ReadFailed, Writes, WriteFailed};
ghost use Rattle.soc_listen.specs.Memory.{link_told, fresh_link};

use soc_base::{Bytes, NoMemory};
use soc_edge::{Both, Failed, MemSink, MemSource, Numbers, Sink, Source, Tells};
use std::alloc::Global;
use std::marker::Model;
use std::sync::{Arc, OnceLock};

/// What a connection wrote, once it was dropped.
pub(crate) type Written = Arc<OnceLock<MemSink>, Global>;

/// Reads a script from memory and writes into memory. Where it is dropped, its listener has what it wrote.
pub struct MemLink {
    link: Both<MemSource, MemSink>,
    written: Written,
}

impl Model for MemLink {
    ghost use Rattle.soc_listen.specs.Memory.{LinkState};

    ghost Value = { LinkState };

    ghost view = { λ c. record { source = c.link.source; sink = c.link.sink } };
}

impl MemLink {
    /// Reads this script and has room for so many bytes.
    pub(crate) fn new(
        alloc: Global,
        script: &[u8],
        room: usize,
        written: Written,
    ) -> Result<MemLink, NoMemory>
        ensures { IfOk result (λ c. c ≡ fresh_link room script.now) }
    {
        let source = MemSource::new(Bytes::of(alloc, script)?, Numbers::new(Vec::new(alloc)));
        let sink = MemSink::new(alloc, room, Numbers::new(Vec::new(alloc)))?;
        let link = Both { source, sink };
        Ok(MemLink { link, written })
    }
}

impl Drop for MemLink {
    fn drop(self) {
        let MemLink { link, written } = self;
        let _ = written.try_set(link.sink);
    }
}

impl Tells for MemLink {
    ghost told = { link_told };
}

impl Source for MemLink {
    /// Reads as much as there is room for.
    fn read(&mut self, into: &mut [u8]) -> Result<usize, Failed>
        ensures count { IfOk result (λ n. n ≤ length into.new) }
        ensures reads { IfOk result (λ n. Reads (link_told self.old) (link_told self.new)
            (take n into.new)) }
        ensures end { IfOk result (λ n. n ≡ 0 → 0 < length into.new
            → IsAtEnd (Some self.new.source.left)) }
        ensures unmoved { OnErr result (Reads (link_told self.old) (link_told self.new) []) }
        ensures cause { OnErr result (ReadFailed (link_told self.old) (link_told self.new)) }
        ensures fails { IsErr result ↔ IsTrue (is_due self.old.source.calls) }
        ensures whole { IfOk result (λ n. n ≡ min (length self.old.source.left) (length into.new)) }
        ensures calls { self.new.source.calls ≡ after_call self.old.source.calls result }
        ensures sink { self.new.sink ≡ self.old.sink }
    {
        self.link.source.read(into)
    }
}

impl Sink for MemLink {
    /// Writes as much as the room has left.
    fn write(&mut self, bytes: &[u8]) -> Result<usize, Failed>
        ensures count { IfOk result (λ n. n ≤ length bytes.now) }
        ensures some { IfOk result (λ n. 0 < length bytes.now → 0 < n) }
        ensures writes { IfOk result (λ n. Writes (link_told self.old) (link_told self.new)
            (take n bytes.now)) }
        ensures untouched { OnErr result (Writes (link_told self.old) (link_told self.new) []) }
        ensures cause { OnErr result (WriteFailed (link_told self.old) (link_told self.new)) }
        ensures fails { IsErr result ↔ (IsTrue (is_due self.old.sink.calls)
            ⊎ ((0 < length bytes.now) × (self.old.sink.room ≤ length self.old.sink.held))) }
        ensures whole { IfOk result (λ n. n ≡ min (length bytes.now)
            (self.old.sink.room - length self.old.sink.held)) }
        ensures room { self.new.sink.room ≡ self.old.sink.room }
        ensures calls { self.new.sink.calls ≡ after_call self.old.sink.calls result }
        ensures source { self.new.source ≡ self.old.source }
    {
        self.link.sink.write(bytes)
    }
}
