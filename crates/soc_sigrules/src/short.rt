//! Texts of which only the first characters are kept.
ghost use Rattle.std.specs.Prelude.{◌≡◌, ◌==◌, ◌++◌, [], length, OnOk};
ghost use Rattle.soc_sigrules.specs.Chars.{first_chars, char_count};

use crate::chars::{char_count, first_chars};
use soc_base::{NoMemory, Text};
use std::alloc::Global;
use std::marker::Model;

/// The first `MOST` characters of a text that comes in pieces.
#[derive(Drop)]
pub struct Short<const MOST: usize> {
    text: String,
    /// How many characters more are kept.
    room: usize,
}

impl<const MOST: usize> Model for Short<MOST> {
    ghost use Rattle.std.specs.Prelude.{◌≡◌, ◌+◌, ℕ, List, string_bytes};
    ghost use Rattle.soc_sigrules.specs.Chars.{char_count};

    ghost Value = { List ℕ };

    ghost view = { λ s. string_bytes s.text };

    ghost invariant = { λ s. char_count (string_bytes s.text) + s.room ≡ MOST };
}

impl<const MOST: usize> Short<MOST> {
    /// Nothing yet.
    pub fn new(alloc: Global) -> Short<MOST>
        ensures { result ≡ [] }
    {
        Short {
            text: String::new(alloc),
            room: MOST,
        }
    }

    /// Adds as much of a text as there is room for.
    pub fn push(&mut self, text: &str) -> Result<(), NoMemory>
        ensures { OnOk result (self.new ≡ first_chars MOST (self.old ++ text.now)) }
    {
        let front = first_chars(text, self.room);
        self.text.push_str(front)?;
        self.room -= char_count(front);
        Ok(())
    }

    /// Whether there is nothing yet.
    pub fn is_empty(&self) -> bool
        ensures { result ≡ (length self.now == 0) }
    {
        self.text.as_str().is_empty()
    }

    /// Whether nothing more is kept.
    pub fn is_full(&self) -> bool
        ensures { result ≡ (char_count self.now == MOST) }
    {
        self.room == 0
    }

    /// The text.
    pub fn as_str(&self) -> &str
        ensures { result.now ≡ self.now }
    {
        self.text.as_str()
    }

    /// The text, owned.
    pub fn into_text(self) -> Text
        ensures { result ≡ self.entry }
    {
        Text::from(self.text)
    }
}
