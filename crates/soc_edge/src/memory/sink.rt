//! A sink in memory.
ghost use Rattle.std.specs.Prelude.{◌≡◌, ◌≤◌, ◌<◌, ◌-◌, ◌↔◌, ◌⊎◌, min, length, take, [], IfOk, OnErr, IsErr, IsTrue};
ghost use Rattle.soc_edge.specs.Calls.{no_calls, is_due, after_call};
ghost use Rattle.soc_edge.specs.Memory.{sink_told};
ghost use Rattle.soc_edge.specs.Told.{Writes, WriteFailed};

use super::calls::CallCount;
use super::lists::Numbers;
use crate::{Failed, Sink, Tells};
use soc_base::NoMemory;
use std::alloc::Global;
use std::marker::Model;

/// Memory that is written to, with so much room. It tells what it holds, and fails at the numbers that it was given
/// and where a piece that isn't empty meets a full room.
#[derive(Drop)]
pub struct MemSink {
    bytes: Vec<u8>,
    room: usize,
    calls: CallCount,
}

impl Model for MemSink {
    ghost use Rattle.std.specs.Prelude.{◌≤◌, vec_len, vec_capacity};
    ghost use Rattle.soc_edge.specs.Memory.{OutputState};

    ghost Value = { OutputState };

    ghost view = { λ s. record { held = s.bytes.items; room = s.room; calls = s.calls } };

    ghost invariant = { λ s. (vec_len s.bytes ≤ s.room) × (s.room ≤ vec_capacity s.bytes) };
}

impl MemSink {
    /// An empty sink with room for so many bytes, whose calls with these numbers fail, counted from 0.
    pub fn new(alloc: Global, room: usize, fails: Numbers) -> Result<MemSink, NoMemory>
        ensures { IfOk result (λ s. s ≡ record { held = []; room = room; calls = no_calls fails }) }
    {
        Ok(MemSink {
            bytes: Vec::with_capacity(alloc, room)?,
            room,
            calls: CallCount::new(fails),
        })
    }

    /// What was written so far.
    pub fn bytes(&self) -> &[u8]
        ensures { result.now ≡ self.now.held }
    {
        self.bytes.as_slice()
    }
}

impl Tells for MemSink {
    ghost told = { sink_told };
}

impl Sink for MemSink {
    /// Writes as much as the room has left.
    fn write(&mut self, bytes: &[u8]) -> Result<usize, Failed>
        ensures count { IfOk result (λ n. n ≤ length bytes.now) }
        ensures some { IfOk result (λ n. 0 < length bytes.now → 0 < n) }
        ensures writes { IfOk result (λ n. Writes (sink_told self.old) (sink_told self.new)
            (take n bytes.now)) }
        ensures untouched { OnErr result (Writes (sink_told self.old) (sink_told self.new) []) }
        ensures cause { OnErr result (WriteFailed (sink_told self.old) (sink_told self.new)) }
        ensures fails { IsErr result ↔ (IsTrue (is_due self.old.calls)
            ⊎ ((0 < length bytes.now) × (self.old.room ≤ length self.old.held))) }
        ensures whole { IfOk result (λ n. n ≡ min (length bytes.now)
            (self.old.room - length self.old.held)) }
        ensures room { self.new.room ≡ self.old.room }
        ensures calls { self.new.calls ≡ after_call self.old.calls result }
    {
        let n = bytes.len().min(self.room - self.bytes.len());
        if self.calls.is_due() || (n == 0 && !bytes.is_empty()) {
            return Err(self.calls.fail());
        }
        self.calls.pass();
        self.bytes.extend_from_slice(&bytes[..n]).unwrap();
        Ok(n)
    }
}
