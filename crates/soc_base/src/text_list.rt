//! A list of texts.
ghost use Rattle.std.specs.Prelude.{◌≡◌, ◌<◌, ◌++◌, ◌∷◌, ◌↔◌, [], length, IsTrue, OnOk, OnErr, slice_get, Some};
ghost use Rattle.std.specs.List.{Contains, list_any};
ghost use Rattle.std.specs.Str.{bytes_eq};

use crate::no_memory::NoMemory;
use crate::text::Text;
use std::alloc::Global;
use std::marker::Model;

/// Texts in order.
#[derive(Debug, Drop)]
pub struct TextList {
    items: Vec<Text>,
}

impl Model for TextList {
    ghost use Rattle.std.specs.Prelude.{List, ℕ};

    ghost Value = { List (List ℕ) };

    ghost view = { λ t. t.items.items };
}

impl TextList {
    /// The empty list.
    pub fn new(alloc: Global) -> TextList
        ensures { result ≡ [] }
    {
        TextList {
            items: Vec::new(alloc),
        }
    }

    /// Adds a text at the end.
    pub fn push(&mut self, item: Text) -> Result<(), NoMemory>
        ensures ok { OnOk result (self.new ≡ self.old ++ item ∷ []) }
        ensures err { OnErr result (self.new ≡ self.old) }
    {
        self.items.push(item)?;
        Ok(())
    }

    /// How many texts there are.
    pub fn len(&self) -> usize
        ensures { result ≡ length self.now }
    {
        self.items.len()
    }

    /// Whether there is none.
    pub fn is_empty(&self) -> bool
        ensures { IsTrue result ↔ (self.now ≡ []) }
    {
        self.items.is_empty()
    }

    /// The text at `i`, from 0.
    pub fn at(&self, i: usize) -> &str
        requires { i < length self.now }
        ensures { slice_get self.now i ≡ Some result.now }
    {
        self.items[i].as_str()
    }

    /// Whether one of them is this text.
    pub fn contains(&self, text: &str) -> bool
        ensures test { result ≡ list_any (bytes_eq text.now) self.now }
        ensures found { IsTrue result ↔ Contains self.now text.now }
    {
        self.items.iter().any(|item| text == item.as_str())
    }

    /// The texts, in order.
    pub fn iter(&self) -> TextItems<'_>
        ensures { result ≡ self.now }
    {
        TextItems {
            rest: self.items.as_slice(),
        }
    }
}

impl<'a> IntoIterator for &'a TextList {
    ghost use Rattle.std.specs.Prelude.{◌≡◌};

    type Item = &'a str;

    type IntoIter = TextItems<'a>;

    ghost into_iter_gives = { λ list it. it ≡ list.now };

    fn into_iter(self) -> TextItems<'a> {
        self.iter()
    }
}

/// The texts that are left of a list. Contracts see their list.
#[derive(Drop)]
pub struct TextItems<'a> {
    rest: &'a [Text],
}

impl<'a> Model for TextItems<'a> {
    ghost use Rattle.std.specs.Prelude.{List, ℕ};

    ghost Value = { List (List ℕ) };

    ghost view = { λ it. it.rest.now };
}

impl<'a> Iterator for TextItems<'a> {
    ghost use Rattle.std.specs.Iterator.{item_count};
    ghost use Rattle.std.specs.Map.Iter.{TakesFirst, deref};

    type Item = &'a str;

    ghost next_gives = { TakesFirst deref };

    ghost remaining = { item_count (λ rest. rest) };

    fn next(&mut self) -> Option<&'a str> {
        let Some((first, rest)) = self.rest.split_first() else {
            return None;
        };
        self.rest = rest;
        Some(first.as_str())
    }
}
