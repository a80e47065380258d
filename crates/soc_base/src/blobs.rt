//! Bytes by name.
ghost use Rattle.std.specs.Prelude.{◌≡◌, ◌<◌, ◌↔◌, [], length, IsTrue, OnOk, OnErr, slice_get};
ghost use Rattle.std.specs.List.{AllByRecursion};
ghost use Rattle.std.specs.Option.{option_copied};
ghost use Rattle.soc_base.specs.Names.{IsRising, value_of, with_value};
ghost use Rattle.soc_base.specs.Names.{HasTextName};

use crate::bytes::Bytes;
use crate::named::BlobPairs;
use crate::no_memory::NoMemory;
use crate::sorted::Sorted;
use crate::text::Text;
use std::alloc::Global;
use std::marker::Model;

/// Bytes by name, in rising byte order of names.
#[derive(Debug, Drop)]
pub struct Blobs {
    map: Sorted<Bytes>,
}

impl Model for Blobs {
    ghost use Rattle.std.specs.Prelude.{List, ℕ};

    ghost Value = { List (List ℕ × List ℕ) };

    ghost use Rattle.std.specs.List.{AllByRecursion};
    ghost use Rattle.soc_base.specs.Names.{HasTextName};

    ghost view = { λ t. t.map };

    ghost invariant = { λ t. AllByRecursion HasTextName t.map };
}

impl Blobs {
    /// The empty map.
    pub fn new(alloc: Global) -> Blobs
        ensures { result ≡ [] }
    {
        Blobs {
            map: Sorted::new(alloc),
        }
    }

    /// Gives `name` the value, in place of the one that it had.
    pub fn set(&mut self, name: Text, value: Bytes) -> Result<(), NoMemory>
        ensures ok { OnOk result (self.new ≡ with_value self.old name value) }
        ensures err { OnErr result (self.new ≡ self.old) }
    {
        // A name is UTF-8.
        let _name = name.as_str();
        self.map.set(name, value)
    }

    /// Gives a copy of the name a copy of the bytes.
    pub fn set_copy(&mut self, alloc: Global, name: &str, value: &[u8]) -> Result<(), NoMemory>
        ensures ok { OnOk result (self.new ≡ with_value self.old name.now value.now) }
        ensures err { OnErr result (self.new ≡ self.old) }
    {
        self.set(Text::of(alloc, name)?, Bytes::of(alloc, value)?)
    }

    /// The value of `name`.
    pub fn get(&self, name: &str) -> Option<&[u8]>
        ensures { option_copied result ≡ value_of self.now name.now }
    {
        match self.map.get(name) {
            Some(value) => Some(value.as_slice()),
            None => None,
        }
    }

    /// How many names there are.
    pub fn len(&self) -> usize
        ensures count { result ≡ length self.now }
        ensures rising { IsRising self.now }
        ensures names { AllByRecursion HasTextName self.now }
    {
        self.map.len()
    }

    /// Whether there is no name.
    pub fn is_empty(&self) -> bool
        ensures { IsTrue result ↔ (self.now ≡ []) }
    {
        self.map.is_empty()
    }

    /// The name and the value at place `i`, from 0.
    pub fn at(&self, i: usize) -> (&str, &[u8])
        requires { i < length self.now }
        ensures { slice_get self.now i ≡ Some (result.0.now, result.1.now) }
    {
        let (name, value) = self.map.at(i);
        (name, value.as_slice())
    }

    /// The names and values, in rising order of names.
    pub fn iter(&self) -> BlobPairs<'_>
        ensures rest { result ≡ self.now }
        ensures rising { IsRising self.now }
        ensures names { AllByRecursion HasTextName self.now }
    {
        BlobPairs::of(self.map.iter())
    }
}

impl<'a> IntoIterator for &'a Blobs {
    ghost use Rattle.std.specs.Prelude.{◌≡◌};
    ghost use Rattle.std.specs.List.{AllByRecursion};
    ghost use Rattle.soc_base.specs.Names.{HasTextName};
    ghost use Rattle.soc_base.specs.Names.{IsRising};

    type Item = (&'a str, &'a [u8]);

    type IntoIter = BlobPairs<'a>;

    ghost into_iter_gives = { λ m it. (it ≡ m.now) × IsRising m.now
        × AllByRecursion HasTextName m.now };

    fn into_iter(self) -> BlobPairs<'a> {
        self.iter()
    }
}
