//! Text that its holders share.
ghost use Rattle.std.specs.Prelude.{◌≡◌, IfOk};

use crate::no_memory::NoMemory;
use crate::text::Text;
use std::alloc::Global;
use std::marker::Model;
use std::sync::Arc;

/// UTF-8 text. All who hold it share one piece of memory. Contracts see its bytes.
#[derive(Debug, Drop)]
pub struct SharedText {
    text: Arc<Text>,
}

impl Model for SharedText {
    ghost use Rattle.std.specs.Prelude.{List, ℕ};

    ghost Value = { List ℕ };

    ghost view = { λ t. t.text.value };
}

impl SharedText {
    /// The text, which can be shared from now on.
    pub fn new(alloc: Global, text: Text) -> Result<SharedText, NoMemory>
        ensures { IfOk result (λ shared. shared ≡ text) }
    {
        Ok(SharedText {
            text: Arc::new(alloc, text)?,
        })
    }

    /// The same text, in memory of its own.
    pub fn of(alloc: Global, s: &str) -> Result<SharedText, NoMemory>
        ensures { IfOk result (λ text. text ≡ s.now) }
    {
        SharedText::new(alloc, Text::of(alloc, s)?)
    }

    /// The same text in the same memory.
    pub fn share(&self) -> Result<SharedText, NoMemory>
        ensures { IfOk result (λ text. text ≡ self.now) }
    {
        Ok(SharedText {
            text: Arc::try_clone(&self.text)?,
        })
    }

    /// Shares the memory of another text from now on, where both are equal.
    pub fn unite(&mut self, other: &SharedText)
        ensures { self.new ≡ self.old }
    {
        if self.as_str() != other.as_str() {
            return;
        }
        if let Ok(text) = other.share() {
            *self = text;
        }
    }

    /// The text.
    pub fn as_str(&self) -> &str
        ensures { result.now ≡ self.now }
    {
        self.text.as_str()
    }
}
