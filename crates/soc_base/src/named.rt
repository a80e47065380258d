//! Values with a name, one after the other.
ghost use Rattle.std.specs.Prelude.{◌≡◌, map};

use crate::bytes::Bytes;
use crate::text::Text;
use std::marker::Model;

/// A value and its name.
#[derive(Debug, Drop)]
pub struct Named<V> {
    pub name: Text,
    pub value: V,
}

/// The names and values that are left of a list. Contracts see their list.
#[derive(Drop)]
pub struct NamedValues<'a, V> {
    entries: &'a [Named<V>],
}

impl<'a, V> Model for NamedValues<'a, V> {
    ghost use Rattle.std.specs.Prelude.{List, ℕ, map};

    ghost Value = { List (List ℕ × V) };

    ghost view = { λ it. map (λ e. (e.name, e.value)) it.entries.now };
}

impl<'a, V> NamedValues<'a, V> {
    /// All of them.
    pub(crate) fn of(entries: &'a [Named<V>]) -> NamedValues<'a, V>
        ensures { result ≡ map (λ e. (e.name, e.value)) entries.now }
    {
        NamedValues { entries }
    }
}

impl<'a, V> Iterator for NamedValues<'a, V> {
    ghost use Rattle.std.specs.Iterator.{item_count};
    ghost use Rattle.std.specs.Map.Iter.{TakesFirst, deref_pair};

    type Item = (&'a str, &'a V);

    ghost next_gives = { TakesFirst deref_pair };

    ghost remaining = { item_count (λ rest. rest) };

    fn next(&mut self) -> Option<(&'a str, &'a V)> {
        let Some((first, rest)) = self.entries.split_first() else {
            return None;
        };
        self.entries = rest;
        Some((first.name.as_str(), &first.value))
    }
}

/// The names and texts that are left of a list. Contracts see their list.
#[derive(Drop)]
pub struct TextPairs<'a> {
    rest: NamedValues<'a, Text>,
}

impl<'a> Model for TextPairs<'a> {
    ghost use Rattle.std.specs.Prelude.{List, ℕ};

    ghost Value = { List (List ℕ × List ℕ) };

    ghost view = { λ it. it.rest };
}

impl<'a> TextPairs<'a> {
    pub(crate) fn of(rest: NamedValues<'a, Text>) -> TextPairs<'a>
        ensures { result ≡ rest.entry }
    {
        TextPairs { rest }
    }
}

impl<'a> Iterator for TextPairs<'a> {
    ghost use Rattle.std.specs.Iterator.{item_count};
    ghost use Rattle.std.specs.Map.Iter.{TakesFirst, deref_pair};

    type Item = (&'a str, &'a str);

    ghost next_gives = { TakesFirst deref_pair };

    ghost remaining = { item_count (λ rest. rest) };

    fn next(&mut self) -> Option<(&'a str, &'a str)> {
        match self.rest.next() {
            Some((name, value)) => Some((name, value.as_str())),
            None => None,
        }
    }
}

/// The names and bytes that are left of a list. Contracts see their list.
#[derive(Drop)]
pub struct BlobPairs<'a> {
    rest: NamedValues<'a, Bytes>,
}

impl<'a> Model for BlobPairs<'a> {
    ghost use Rattle.std.specs.Prelude.{List, ℕ};

    ghost Value = { List (List ℕ × List ℕ) };

    ghost view = { λ it. it.rest };
}

impl<'a> BlobPairs<'a> {
    pub(crate) fn of(rest: NamedValues<'a, Bytes>) -> BlobPairs<'a>
        ensures { result ≡ rest.entry }
    {
        BlobPairs { rest }
    }
}

impl<'a> Iterator for BlobPairs<'a> {
    ghost use Rattle.std.specs.Iterator.{item_count};
    ghost use Rattle.std.specs.Map.Iter.{TakesFirst, deref_pair};

    type Item = (&'a str, &'a [u8]);

    ghost next_gives = { TakesFirst deref_pair };

    ghost remaining = { item_count (λ rest. rest) };

    fn next(&mut self) -> Option<(&'a str, &'a [u8])> {
        match self.rest.next() {
            Some((name, value)) => Some((name, value.as_slice())),
            None => None,
        }
    }
}
