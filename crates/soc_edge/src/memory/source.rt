//! A source in memory.
ghost use Rattle.std.specs.Prelude.{◌≡◌, ◌≤◌, ◌<◌, ◌↔◌, Some, min, [], length, take, IfOk, OnErr, IsErr, IsTrue};
ghost use Rattle.std.specs.Io.KnownBytes.{IsAtEnd};
ghost use Rattle.soc_edge.specs.Calls.{no_calls, is_due, after_call};
ghost use Rattle.soc_edge.specs.Memory.{source_told};
ghost use Rattle.soc_edge.specs.Told.{Reads, ReadFailed};

use super::calls::CallCount;
use super::lists::Numbers;
use crate::{Failed, Source, Tells};
use soc_base::Bytes;
use std::marker::Model;

/// Bytes in memory, read from the first on. It tells what is left, and fails at the numbers that it was given.
#[derive(Drop)]
pub struct MemSource {
    bytes: Bytes,
    at: usize,
    calls: CallCount,
}

impl Model for MemSource {
    ghost use Rattle.std.specs.Prelude.{◌≤◌, length, drop};
    ghost use Rattle.soc_edge.specs.Memory.{InputState};

    ghost Value = { InputState };

    ghost view = { λ s. record { left = drop s.at s.bytes; calls = s.calls } };

    ghost invariant = { λ s. s.at ≤ length s.bytes };
}

impl MemSource {
    /// A source of these bytes, whose calls with these numbers fail, counted from 0.
    pub fn new(bytes: Bytes, fails: Numbers) -> MemSource
        ensures { result ≡ record { left = bytes; calls = no_calls fails } }
    {
        MemSource {
            bytes,
            at: 0,
            calls: CallCount::new(fails),
        }
    }
}

impl Tells for MemSource {
    ghost told = { source_told };
}

impl Source for MemSource {
    /// Reads as much as there is room for.
    fn read(&mut self, into: &mut [u8]) -> Result<usize, Failed>
        ensures count { IfOk result (λ n. n ≤ length into.new) }
        ensures reads { IfOk result (λ n. Reads (source_told self.old) (source_told self.new)
            (take n into.new)) }
        ensures end { IfOk result (λ n. n ≡ 0 → 0 < length into.new
            → IsAtEnd (Some self.new.left)) }
        ensures unmoved { OnErr result (Reads (source_told self.old) (source_told self.new) []) }
        ensures cause { OnErr result (ReadFailed (source_told self.old) (source_told self.new)) }
        ensures fails { IsErr result ↔ IsTrue (is_due self.old.calls) }
        ensures whole { IfOk result (λ n. n ≡ min (length self.old.left) (length into.new)) }
        ensures calls { self.new.calls ≡ after_call self.old.calls result }
    {
        if self.calls.is_due() {
            return Err(self.calls.fail());
        }
        self.calls.pass();
        let rest = &self.bytes.as_slice()[self.at..];
        let n = rest.len().min(into.len());
        into[..n].copy_from_slice(&rest[..n]);
        self.at += n;
        Ok(n)
    }
}
