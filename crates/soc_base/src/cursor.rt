//! Bytes that are read from their front.
ghost use Rattle.std.specs.Prelude.{◌≡◌, ◌<◌, ◌^◌, ◌∷◌, [], ◌↔◌, IsTrue, length, MatchOption, true, false, ⊤};
ghost use Rattle.std.specs.Int.{from_le_bytes, to_le_bytes, w32, w64};
ghost use Rattle.std.specs.Str.{IsUtf8, is_utf8};
ghost use Rattle.soc_base.specs.Cursor.{Takes};
ghost use Rattle.soc_base.specs.Cursor.{ReadsAs, number_at, bytes_at, blob_at, text_at};
ghost use Rattle.soc_base.specs.Cursor.{counted};

use std::marker::Model;

/// What is left of some bytes. A read that answers nothing takes nothing. Contracts see the bytes that are left.
#[derive(Drop)]
pub struct Cursor<'a> {
    rest: &'a [u8],
}

impl<'a> Model for Cursor<'a> {
    ghost use Rattle.std.specs.Prelude.{List, ℕ};

    ghost Value = { List ℕ };

    ghost view = { λ c. c.rest.now };
}

impl<'a> Cursor<'a> {
    /// All of the bytes.
    pub fn new(bytes: &'a [u8]) -> Cursor<'a>
        ensures { result ≡ bytes.now }
    {
        Cursor { rest: bytes }
    }

    /// The bytes that are left.
    pub fn rest(&self) -> &'a [u8]
        ensures { result.now ≡ self.now }
    {
        self.rest
    }

    /// Whether none is left.
    pub fn is_empty(&self) -> bool
        ensures { IsTrue result ↔ (self.now ≡ []) }
    {
        self.rest.is_empty()
    }

    /// The next `count` bytes.
    pub fn take(&mut self, count: usize) -> Option<&'a [u8]>
        ensures takes { Takes (λ b. b.now) (λ b. length b ≡ count)
            (λ b. b) result self.old self.new }
        ensures reads { ReadsAs (λ b. b.now) (bytes_at count) result self.old self.new }
    {
        if self.rest.len() < count {
            return None;
        }
        let (front, rest) = self.rest.split_at(count);
        self.rest = rest;
        Some(front)
    }

    /// The next byte.
    pub fn byte(&mut self) -> Option<u8>
        ensures { Takes (λ b. b) (λ _. ⊤) (λ b. b ∷ []) result self.old self.new }
    {
        let Some((first, rest)) = self.rest.split_first() else {
            return None;
        };
        self.rest = rest;
        Some(*first)
    }

    /// A number of 4 bytes, the lowest first.
    pub fn u32(&mut self) -> Option<u32>
        ensures takes { Takes (λ n. n) (λ n. n < 2 ^ 32)
            (to_le_bytes w32) result self.old self.new }
        ensures reads { ReadsAs (λ n. n) (number_at w32) result self.old self.new }
    {
        let Some((front, rest)) = self.rest.split_first_chunk::<4>() else {
            return None;
        };
        self.rest = rest;
        Some(u32_of(*front))
    }

    /// A number of 8 bytes, the lowest first.
    pub fn u64(&mut self) -> Option<u64>
        ensures takes { Takes (λ n. n) (λ n. n < 2 ^ 64)
            (to_le_bytes w64) result self.old self.new }
        ensures reads { ReadsAs (λ n. n) (number_at w64) result self.old self.new }
    {
        let Some((front, rest)) = self.rest.split_first_chunk::<8>() else {
            return None;
        };
        self.rest = rest;
        Some(u64_of(*front))
    }

    /// Bytes behind their number in 4 bytes.
    #[tactic(auto, unfolding(crate::specs::Cursor::blob_at))]
    pub fn counted(&mut self) -> Option<&'a [u8]>
        ensures takes { Takes (λ b. b.now)
            (λ b. length b < 2 ^ 32) counted result self.old self.new }
        ensures reads { ReadsAs (λ b. b.now) blob_at result self.old self.new }
    {
        let mut ahead = Cursor { rest: self.rest };
        let Some(count) = ahead.u32() else {
            return None;
        };
        let Some(bytes) = ahead.take(count as usize) else {
            return None;
        };
        self.rest = ahead.rest;
        Some(bytes)
    }

    /// A text behind the number of its bytes in 4 bytes.
    #[tactic(auto, unfolding(crate::specs::Cursor::text_at))]
    pub fn text(&mut self) -> Option<&'a str>
        ensures takes { Takes (λ t. t.now)
            (λ t. IsUtf8 t × (length t < 2 ^ 32)) counted result self.old self.new }
        ensures reads { ReadsAs (λ t. t.now) text_at result self.old self.new }
    {
        let mut ahead = Cursor { rest: self.rest };
        let Some(bytes) = ahead.counted() else {
            return None;
        };
        let Some(text) = text_of(bytes) else {
            return None;
        };
        self.rest = ahead.rest;
        Some(text)
    }
}

pub(crate) fn text_of(blob: &[u8]) -> Option<&str>
    ensures { MatchOption result (is_utf8 blob.now ≡ false)
        (λ text. (is_utf8 blob.now ≡ true) × (text.now ≡ blob.now)) }
{
    match str::from_utf8(blob) {
        Ok(text) => Some(text),
        Err(_) => None,
    }
}

fn u32_of(bytes: [u8; 4]) -> u32
    ensures value { result ≡ from_le_bytes w32 bytes }
    ensures text { to_le_bytes w32 result ≡ bytes }
{
    u32::from_le_bytes(bytes)
}

fn u64_of(bytes: [u8; 8]) -> u64
    ensures value { result ≡ from_le_bytes w64 bytes }
    ensures text { to_le_bytes w64 result ≡ bytes }
{
    u64::from_le_bytes(bytes)
}
