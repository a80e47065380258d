//! The window that messages are read through.
ghost use Rattle.std.specs.Prelude.{◌≡◌, ◌≤◌, ◌<◌, ◌+◌, ◌-◌, [], length, take, drop, IfOk, IsErrOf, OnErr};
ghost use Rattle.std.specs.Io.KnownBytes.{IsAtEnd};
ghost use Rattle.soc_edge.specs.Told.{OnlyReads, Reads, ReadFailed};
ghost use Rattle.std.specs.Borrow.{sem};
ghost use Rattle.std.specs.Io.BufRead.{Rests};
ghost use Rattle.soc_http.specs.inner.Windows.{Fills};
ghost use Rattle.soc_http.specs.Body.{PieceFrom};
ghost use Rattle.soc_http.specs.contracts.buffer.Buffer.{the_row};

use crate::body::{BodyError, piece_len};
use soc_base::NoMemory;
use soc_edge::{Failed, Source};
use std::alloc::Global;
use std::marker::Model;
use std::ops::Range;

/// How many bytes the window holds.
const WINDOW: usize = 32_768;

/// From this place on, the unread bytes are moved to the front before more are read behind them. They then fit into
/// the part before it, so that no byte is moved twice.
const TURN: usize = 16_384;

/// A window of 32,768 bytes over what a source gives. Contracts see the bytes that stand unread in it.
#[derive(Debug, Drop)]
pub struct Buffer {
    bytes: Vec<u8>,
    start: usize,
    end: usize,
}

impl Model for Buffer {
    ghost use Rattle.std.specs.Prelude.{◌≡◌, ◌≤◌, List, ℕ, take, drop, vec_len};

    ghost Value = { List ℕ };

    ghost view = { λ b. drop b.start (take b.end b.bytes.items) };

    ghost invariant = { λ b. (vec_len b.bytes ≡ 32768) × (b.start ≤ b.end) × (b.end ≤ 32768) };
}

/// Reads behind the first `end` bytes of a window.
pub(crate) fn read_behind<S: Source>(
    source: &mut S,
    window: &mut [u8],
    end: usize,
) -> Result<usize, Failed>
    requires { end ≤ length window.old }
    ensures front { take end window.new ≡ take end window.old }
    ensures count { IfOk result (λ n. end + n ≤ length window.new) }
    ensures reads { IfOk result (λ n.
        Reads (S.told source.old) (S.told source.new) (take n (drop end window.new))) }
    ensures ended { IfOk result (λ n. n ≡ 0 → end < length window.new
        → IsAtEnd (S.told source.new).left) }
    ensures unmoved { OnErr result (Reads (S.told source.old) (S.told source.new) []) }
    ensures cause { OnErr result (ReadFailed (S.told source.old) (S.told source.new)) }
{
    source.read(&mut window[end..])
}

/// Moves `count` bytes from `start` on to the front, where they fit before `start`.
fn move_to_front(window: &mut [u8], start: usize, count: usize)
    requires within { start + count ≤ length window.old }
    requires apart { count ≤ start }
    ensures { take count window.new ≡ take count (drop start window.old) }
{
    let (front, back) = window.split_at_mut(start);
    front[..count].copy_from_slice(&back[..count]);
}

/// Where the unread bytes stand once there is room behind them: from place `TURN` on they move to the front.
fn make_room(window: &mut [u8], start: usize, end: usize) -> Range<usize>
    requires ordered { start ≤ end }
    requires within { end ≤ length window.old }
    requires size { length window.old ≡ 32768 }
    ensures unread { drop result.start (take result.end window.new)
        ≡ drop start (take end window.old) }
    ensures ordered { result.start ≤ result.end }
    ensures count { result.end - result.start ≡ end - start }
    ensures early { result.start < 16384 }
{
    if start < TURN {
        return start..end;
    }
    let count = end - start;
    move_to_front(window, start, count);
    0..count
}

impl Buffer {
    /// An empty window.
    pub fn new(alloc: Global) -> Result<Buffer, NoMemory>
        ensures { IfOk result (λ buffer. buffer ≡ []) }
    {
        Ok(Buffer {
            bytes: vec![in alloc; 0; WINDOW]?,
            start: 0,
            end: 0,
        })
    }

    /// Empties the window.
    pub fn clear(&mut self)
        ensures { self.new ≡ [] }
    {
        self.start = 0;
        self.end = 0;
    }

    /// The bytes that stand unread.
    pub(crate) fn unread(&self) -> &[u8]
        ensures value { result.now ≡ self.now }
        ensures room { length self.now ≤ 32768 }
    {
        &self.bytes[self.start..self.end]
    }

    /// Passes over the next bytes of a body, and lends them.
    pub(crate) fn take_piece<S: Source>(
        &mut self,
        source: &mut S,
        left: &mut u64,
    ) -> Result<&[u8], BodyError>
        requires { 0 < left.old }
        ensures* after_borrow { sem 𝓛 (Rests the_row self.entry
            (λ new. PieceFrom (S.told source.old) (S.told source.new) self.old result new)) }
        ensures only { OnlyReads (S.told source.old) (S.told source.new) }
        ensures some { IfOk result (λ piece. 0 < length piece.now) }
        ensures counted { IfOk result (λ piece. left.new + length piece.now ≡ left.old) }
        ensures left_stays { OnErr result (left.new ≡ left.old) }
        ensures cause { IsErrOf result BodyError.ReadFault
            → ReadFailed (S.told source.old) (S.told source.new) }
    {
        let count = piece_len(source, self, *left)?;
        *left -= count as u64;
        let start = self.start;
        self.start += count;
        Ok(&self.bytes[start..self.start])
    }

    /// Passes over the first unread bytes.
    pub(crate) fn consume(&mut self, count: usize)
        requires { count ≤ length self.old }
        ensures { self.new ≡ drop count self.old }
    {
        self.start += count;
    }

    /// Reads more bytes behind the unread ones, and answers how many; 0 at the end of input.
    pub(crate) fn fill<S: Source>(&mut self, source: &mut S) -> Result<usize, Failed>
        requires { length self.old ≤ 16384 }
        ensures fills { IfOk result (λ _.
            Fills (S.told source.old) (S.told source.new) self.old self.new) }
        ensures count { IfOk result (λ n. length self.new ≡ length self.old + n) }
        ensures ended { IfOk result (λ n. n ≡ 0 → IsAtEnd (S.told source.new).left) }
        ensures kept { OnErr result (self.new ≡ self.old) }
        ensures unmoved { OnErr result (Reads (S.told source.old) (S.told source.new) []) }
        ensures cause { OnErr result (ReadFailed (S.told source.old) (S.told source.new)) }
    {
        let unread = make_room(self.bytes.as_mut_slice(), self.start, self.end);
        self.start = unread.start;
        self.end = unread.end;
        let count = read_behind(source, self.bytes.as_mut_slice(), self.end)?;
        self.end += count;
        Ok(count)
    }
}
