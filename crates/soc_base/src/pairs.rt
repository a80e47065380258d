//! A list of pairs of texts.
ghost use Rattle.std.specs.Prelude.{◌≡◌, ◌<◌, ◌++◌, ◌∷◌, ◌↔◌, [], length, IsTrue, OnOk, OnErr, slice_get, Some};

use crate::named::{Named, NamedValues, TextPairs};
use crate::no_memory::NoMemory;
use crate::text::Text;
use std::alloc::Global;
use std::marker::Model;

/// Pairs of a name and a value, in order. Names may repeat.
#[derive(Debug, Drop)]
pub struct Pairs {
    items: Vec<Named<Text>>,
}

impl Model for Pairs {
    ghost use Rattle.std.specs.Prelude.{List, ℕ, map};

    ghost Value = { List (List ℕ × List ℕ) };

    ghost view = { λ p. map (λ pair. (pair.name, pair.value)) p.items.items };
}

impl Pairs {
    /// The empty list.
    pub fn new(alloc: Global) -> Pairs
        ensures { result ≡ [] }
    {
        Pairs {
            items: Vec::new(alloc),
        }
    }

    /// Adds a pair at the end.
    pub fn push(&mut self, name: Text, value: Text) -> Result<(), NoMemory>
        ensures ok { OnOk result (self.new ≡ self.old ++ (name, value) ∷ []) }
        ensures err { OnErr result (self.new ≡ self.old) }
    {
        self.items.push(Named { name, value })?;
        Ok(())
    }

    /// How many pairs there are.
    pub fn len(&self) -> usize
        ensures { result ≡ length self.now }
    {
        self.items.len()
    }

    /// Whether there is none.
    pub fn is_empty(&self) -> bool
        ensures { IsTrue result ↔ (self.now ≡ []) }
    {
        self.items.is_empty()
    }

    /// The name and the value of the pair at `i`, from 0.
    pub fn at(&self, i: usize) -> (&str, &str)
        requires { i < length self.now }
        ensures { slice_get self.now i ≡ Some (result.0.now, result.1.now) }
    {
        let pair = &self.items[i];
        (pair.name.as_str(), pair.value.as_str())
    }

    /// The names and values, in order.
    pub fn iter(&self) -> TextPairs<'_>
        ensures { result ≡ self.now }
    {
        TextPairs::of(NamedValues::of(self.items.as_slice()))
    }
}

impl<'a> IntoIterator for &'a Pairs {
    ghost use Rattle.std.specs.Prelude.{◌≡◌};

    type Item = (&'a str, &'a str);

    type IntoIter = TextPairs<'a>;

    ghost into_iter_gives = { λ pairs it. it ≡ pairs.now };

    fn into_iter(self) -> TextPairs<'a> {
        self.iter()
    }
}
