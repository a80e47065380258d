//! Patterns that stand for their own text, sought where a frame begins.
ghost use Rattle.std.specs.Prelude.{◌≡◌, ◌≤◌, ℕ, ◌||◌, true, false, List, [], ◌-◌, length, slice_get, OnOk};
ghost use Rattle.std.specs.List.{All, AllWithin};
ghost use Rattle.std.specs.Option.{option_map_or};
ghost use Rattle.std.specs.Ordering.{is_gt};
ghost use Rattle.soc_base.specs.Names.{byte_cmp};
ghost use Rattle.soc_siglists.specs.inner.Literals.{AreApart, IsUpTo, begins_with, begins_with_one};

use soc_base::{NoMemory, Text};
use std::alloc::Global;
use std::marker::Model;

/// Texts in byte order, none of which begins with another. Contracts see the list.
#[derive(Drop)]
pub struct Literals {
    texts: Vec<Text>,
}

impl Model for Literals {
    ghost use Rattle.std.specs.Prelude.{List, ℕ};
    ghost use Rattle.soc_siglists.specs.inner.Literals.{AreApart};

    ghost Value = { List (List ℕ) };

    ghost view = { λ l. l.texts.items };

    ghost invariant = { λ l. AreApart l.texts.items };
}

impl Literals {
    /// No text.
    pub fn new(alloc: Global) -> Literals
        ensures { result ≡ [] }
    {
        Literals {
            texts: Vec::new(alloc),
        }
    }

    /// Adds a text that stands behind the others, unless it begins with one of them.
    pub fn push(&mut self, text: Text) -> Result<(), NoMemory>
        requires { All (IsUpTo text) self.old }
        ensures begun { OnOk result ((frame : List ℕ) → begins_with_one self.new frame ≡
            (begins_with_one self.old frame || begins_with frame text)) }
        ensures up_to { OnOk result (All (IsUpTo text) self.new) }
    {
        if begins_with_last(&self.texts, text.as_str()) {
            return Ok(());
        }
        self.texts.push(text)?;
        Ok(())
    }

    /// Whether the frame begins with one of the texts.
    pub fn begin(&self, frame: &str) -> bool
        ensures { result ≡ begins_with_one self.now frame.now }
    {
        let count = count_to(&self.texts, frame);
        begins_with_last(&self.texts[..count], frame)
    }
}

/// Whether the text begins with the last of these.
fn begins_with_last(texts: &[Text], text: &str) -> bool
    ensures { result ≡ option_map_or (begins_with text.now)
        (slice_get texts.now (length texts.now - 1)) false }
{
    match texts.last() {
        Some(last) => text.as_bytes().starts_with(last.as_str().as_bytes()),
        None => false,
    }
}

/// Whether the text stands behind the frame in byte order.
fn is_behind(text: &Text, frame: &str) -> bool
    ensures { result ≡ is_gt (byte_cmp text.now frame.now) }
{
    text.as_str() > frame
}

/// How many of the texts don't stand behind the frame.
fn count_to(texts: &[Text], frame: &str) -> usize
    requires { AreApart texts.now }
    ensures bound { result ≤ length texts.now }
    ensures front { AllWithin (IsUpTo frame.now) texts.now 0 result }
    ensures back { AllWithin (λ text. is_gt (byte_cmp text frame.now) ≡ true) texts.now result
        (length texts.now) }
{
    let mut low = 0;
    let mut high = texts.len();
    while low < high {
        let middle = low + (high - low) / 2;
        if is_behind(&texts[middle], frame) {
            high = middle;
        } else {
            low = middle + 1;
        }
    }
    low
}
