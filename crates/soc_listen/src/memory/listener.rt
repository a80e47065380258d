//! A listener in memory.
ghost use Rattle.std.specs.Prelude.{◌≡◌, ◌↔◌, ◌&&◌, [], ◌∷◌, not, IfOk, OnErr, IsErr, IsTrue, MatchOption};
ghost use Rattle.soc_edge.specs.Calls.{is_due, after_call};
ghost use Rattle.soc_listen.specs.Memory.{link_told, listener_told, fresh_listener, none_left};
ghost use Rattle.soc_listen.specs.Told.{HandsOver, Ends, AcceptFailed};

use super::link::{MemLink, Written};
use super::waker::MemWaker;
use crate::{Conn, Listener};
use soc_base::NoMemory;
use soc_edge::{BytesList, CallCount, Failed, Numbers};
use std::alloc::Global;
use std::collections::VecDeque;
use std::marker::Model;
use std::sync::{Arc, OnceLock};

/// Connections in memory, one for each script. It tells them, and fails at the numbers that it was given, until it has
/// ended.
#[derive(Drop)]
pub struct MemListener {
    left: VecDeque<MemLink>,
    written: Vec<Written>,
    calls: CallCount,
    ended: bool,
}

impl Model for MemListener {
    ghost use Rattle.std.specs.Prelude.{◌≡◌, ◌-◌, ◌≤◌, [], true, vec_len, length};
    ghost use Rattle.soc_listen.specs.Memory.{ListenerState};

    ghost Value = { ListenerState };

    ghost view = { λ l. record {
      left = l.left.items;
      handed = vec_len l.written - length l.left.items;
      calls = l.calls;
      ended = l.ended;
    } };

    ghost invariant = { λ l. (length l.left.items ≤ vec_len l.written)
        × (l.ended ≡ true → l.left.items ≡ []) };
}

impl MemListener {
    /// A listener with one connection for each script, in this order. Each connection has room for so many bytes. The
    /// calls of `accept` with these numbers fail, counted from 0. All memory is taken here.
    pub fn new(
        alloc: Global,
        scripts: BytesList,
        room: usize,
        fails: Numbers,
    ) -> Result<MemListener, NoMemory>
        ensures { IfOk result (λ l. l ≡ fresh_listener room scripts fails) }
    {
        let mut left = VecDeque::new(alloc);
        let mut written = Vec::new(alloc);
        for script in scripts.as_slice() {
            let place = Arc::new(alloc, OnceLock::new())?;
            left.push_back(MemLink::new(alloc, script.as_slice(), room, place.clone()?)?)?;
            written.push(place)?;
        }
        Ok(MemListener {
            left,
            written,
            calls: CallCount::new(fails),
            ended: false,
        })
    }

    /// What the connection of this number, counted from 0, wrote, once it was dropped.
    pub fn written(&self, number: usize) -> Option<&[u8]> {
        Some(self.written.get(number)?.get()?.bytes())
    }

    // Whether the next call is one of those that fail.
    fn is_due(&self) -> bool
        ensures { result ≡ (not self.now.ended && is_due self.now.calls) }
    {
        !self.ended && self.calls.is_due()
    }
}

impl Listener for MemListener {
    type Link = MemLink;

    type Waker = MemWaker;

    ghost told = { listener_told };

    ghost spent = { none_left };

    fn accept(&mut self) -> Result<Option<Conn<MemLink, MemWaker>>, Failed>
        ensures gives { IfOk result (λ conn. MatchOption conn
            (Ends (listener_told self.old) (listener_told self.new))
            (λ c. HandsOver (listener_told self.old) (listener_told self.new) (link_told c.link))) }
        ensures fails { OnErr result (AcceptFailed (listener_told self.old)
            (listener_told self.new)) }
        ensures only { IsErr result ↔ IsTrue (not self.old.ended && is_due self.old.calls) }
        ensures first { IfOk result (λ conn. MatchOption conn (self.old.left ≡ [])
            (λ c. self.old.left ≡ c.link ∷ self.new.left)) }
        ensures calls { self.new.calls ≡ after_call self.old.calls result }
    {
        if self.is_due() {
            return Err(self.calls.fail());
        }
        self.calls.pass();
        let Some(link) = self.left.pop_front() else {
            self.ended = true;
            return Ok(None);
        };
        Ok(Some(Conn {
            link,
            waker: MemWaker::new(),
        }))
    }
}
