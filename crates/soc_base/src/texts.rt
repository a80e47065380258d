//! Texts by name.
ghost use Rattle.std.specs.Prelude.{◌≡◌, ◌<◌, ◌↔◌, [], length, IsTrue, OnOk, OnErr, slice_get};
ghost use Rattle.std.specs.List.{AllByRecursion};
ghost use Rattle.std.specs.Option.{option_copied};
ghost use Rattle.soc_base.specs.Names.{IsRising, value_of, with_value};
ghost use Rattle.soc_base.specs.Names.{IsText};

use crate::named::TextPairs;
use crate::no_memory::NoMemory;
use crate::sorted::Sorted;
use crate::text::Text;
use std::alloc::Global;
use std::marker::Model;

/// Texts by name, in rising byte order of names.
#[derive(Debug, Drop)]
pub struct Texts {
    map: Sorted<Text>,
}

impl Model for Texts {
    ghost use Rattle.std.specs.Prelude.{List, ℕ};

    ghost Value = { List (List ℕ × List ℕ) };

    ghost use Rattle.std.specs.List.{AllByRecursion};
    ghost use Rattle.soc_base.specs.Names.{IsText};

    ghost view = { λ t. t.map };

    ghost invariant = { λ t. AllByRecursion IsText t.map };
}

impl Texts {
    /// The empty map.
    pub fn new(alloc: Global) -> Texts
        ensures { result ≡ [] }
    {
        Texts {
            map: Sorted::new(alloc),
        }
    }

    /// Gives `name` the value, in place of the one that it had.
    pub fn set(&mut self, name: Text, value: Text) -> Result<(), NoMemory>
        ensures ok { OnOk result (self.new ≡ with_value self.old name value) }
        ensures err { OnErr result (self.new ≡ self.old) }
    {
        // Texts are UTF-8.
        let _name = name.as_str();
        let _value = value.as_str();
        self.map.set(name, value)
    }

    /// Gives a copy of the name a copy of the text.
    pub fn set_copy(&mut self, alloc: Global, name: &str, value: &str) -> Result<(), NoMemory>
        ensures ok { OnOk result (self.new ≡ with_value self.old name.now value.now) }
        ensures err { OnErr result (self.new ≡ self.old) }
    {
        self.set(Text::of(alloc, name)?, Text::of(alloc, value)?)
    }

    /// The value of `name`.
    pub fn get(&self, name: &str) -> Option<&str>
        ensures { option_copied result ≡ value_of self.now name.now }
    {
        match self.map.get(name) {
            Some(value) => Some(value.as_str()),
            None => None,
        }
    }

    /// How many names there are.
    pub fn len(&self) -> usize
        ensures count { result ≡ length self.now }
        ensures rising { IsRising self.now }
        ensures texts { AllByRecursion IsText self.now }
    {
        self.map.len()
    }

    /// Whether there is no name.
    pub fn is_empty(&self) -> bool
        ensures { IsTrue result ↔ (self.now ≡ []) }
    {
        self.map.is_empty()
    }

    /// The name and the value at place `i`, from 0.
    pub fn at(&self, i: usize) -> (&str, &str)
        requires { i < length self.now }
        ensures { slice_get self.now i ≡ Some (result.0.now, result.1.now) }
    {
        let (name, value) = self.map.at(i);
        (name, value.as_str())
    }

    /// The names and values, in rising order of names.
    pub fn iter(&self) -> TextPairs<'_>
        ensures rest { result ≡ self.now }
        ensures rising { IsRising self.now }
        ensures texts { AllByRecursion IsText self.now }
    {
        TextPairs::of(self.map.iter())
    }
}

impl<'a> IntoIterator for &'a Texts {
    ghost use Rattle.std.specs.Prelude.{◌≡◌};
    ghost use Rattle.std.specs.List.{AllByRecursion};
    ghost use Rattle.soc_base.specs.Names.{IsText};
    ghost use Rattle.soc_base.specs.Names.{IsRising};

    type Item = (&'a str, &'a str);

    type IntoIter = TextPairs<'a>;

    ghost into_iter_gives = { λ m it. (it ≡ m.now) × IsRising m.now × AllByRecursion IsText m.now };

    fn into_iter(self) -> TextPairs<'a> {
        self.iter()
    }
}
