//! What is kept of the frames.
ghost use Rattle.std.specs.Prelude.{◌≡◌, ◌||◌, not, Some, IfOk, OnOk};
ghost use Rattle.soc_sigrules.specs.Spaces.{words};
ghost use Rattle.soc_sigrules.specs.Stacks.{is_text, empty_text};
ghost use Rattle.soc_sigrules.specs.inner.Fronts.{no_texts, with_word, with_words, with_text, front_text};

use crate::short::Short;
use crate::spaces::{SPACE, next_word};
use soc_base::{NoMemory, Text};
use std::alloc::Global;
use std::marker::Model;

/// What stands between frames.
pub const SEPARATOR: &str = " | ";

const NO_FRAMES: &str = "EMPTY: no frame data available";

const NO_THREAD: &str = "EMPTY: no crashing thread identified";

/// How many characters of the texts are kept: as many as tell whether the signature is cut, and one more, since it may be
/// a space at the end, which goes away.
const MOST: usize = 257;

/// Of the texts of a stack what a signature can show, and the last text, which a module is compared with.
#[derive(Drop)]
pub struct StackTexts {
    front: Short<MOST>,
    last: Option<Text>,
    /// Whether nothing follows the last text.
    is_ended: bool,
}

impl Model for StackTexts {
    ghost use Rattle.soc_sigrules.specs.Signatures.{StackState};

    ghost Value = { StackState };

    ghost view = { λ s. record { front = s.front; last = s.last; is_ended = s.is_ended } };
}

impl StackTexts {
    /// No texts yet.
    pub fn new(alloc: Global) -> StackTexts
        ensures { result ≡ no_texts }
    {
        StackTexts {
            front: Short::new(alloc),
            last: None,
            is_ended: false,
        }
    }

    /// Adds a word.
    fn push_word(&mut self, word: &str) -> Result<(), NoMemory>
        ensures { OnOk result (self.new
            ≡ record self.old { front = with_word self.old.front word.now }) }
    {
        if !self.front.is_empty() {
            self.front.push(SPACE)?;
        }
        self.front.push(word)
    }

    /// Adds the words of a text.
    fn push_words(&mut self, text: &str) -> Result<(), NoMemory>
        ensures { OnOk result (self.new
            ≡ record self.old { front = with_words self.old.front (words text.now) }) }
    {
        let mut rest = text;
        while !self.front.is_full() {
            let Some((word, others)) = next_word(rest) else {
                return Ok(());
            };
            self.push_word(word)?;
            rest = others;
        }
        Ok(())
    }

    /// Adds a text, behind which others follow only where it is a prefix.
    pub fn push(&mut self, alloc: Global, text: &str, is_prefix: bool) -> Result<(), NoMemory>
        ensures { OnOk result (self.new ≡ with_text self.old text.now is_prefix) }
    {
        if self.last.is_some() {
            self.push_words(SEPARATOR)?;
        }
        self.push_words(text)?;
        self.last = Some(Text::of(alloc, text)?);
        self.is_ended = self.is_ended || !is_prefix;
        Ok(())
    }

    /// Whether nothing follows the texts.
    pub fn is_ended(&self) -> bool
        ensures { result ≡ self.now.is_ended }
    {
        self.is_ended
    }

    /// Whether the last of the texts is this one.
    pub fn is_last(&self, text: &str) -> bool
        ensures { result ≡ is_text self.now.last text.now }
    {
        match &self.last {
            Some(last) => last.as_str() == text,
            None => false,
        }
    }

    /// The text of a signature without anything else of the crash, as far as a signature can show it.
    pub fn into_text(self, alloc: Global, thread_found: bool) -> Result<Text, NoMemory>
        ensures { IfOk result (λ text. text ≡ front_text thread_found self) }
    {
        if self.last.is_some() {
            return Ok(self.front.into_text());
        }
        Text::of(alloc, empty_text(thread_found))
    }
}

/// The text of a stack without texts.
fn empty_text(thread_found: bool) -> &'static str
    ensures { result.now ≡ empty_text thread_found }
{
    if thread_found { NO_FRAMES } else { NO_THREAD }
}
