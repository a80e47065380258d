//! Sets of places.
ghost use Rattle.std.specs.Prelude.{◌≡◌, ◌<◌, ◌≤◌, ◌/◌, ◌%◌, ◌^◌, ◌&&◌, ◌||◌, not, Bool, false, ℕ, List, [], IfOk, OnOk, OnErr, length, slice_index, slice_index_or, count_by, ◌==◌};
ghost use Rattle.std.specs.List.{list_any};
ghost use Rattle.soc_search.specs.inner.Places.{bit, has, met, word_has};

use soc_base::NoMemory;
use std::alloc::Global;
use std::marker::Model;

/// A set of places, in pages of bits.
#[derive(Debug, Drop)]
pub(crate) struct PlaceSet {
    pages: Vec<Page>,
}

/// 65,536 places in a row, in words of 64 of them. Words that are not there have none.
#[derive(Debug, Drop)]
struct Page {
    words: Vec<u64>,
}

/// How two sets meet.
#[derive(Clone, Copy, Debug)]
pub(crate) enum Meeting {
    /// What is in both.
    And,
    /// What is in the first alone.
    Without,
}

impl Model for Page {
    ghost use Rattle.std.specs.Prelude.{List, ℕ};

    ghost Value = { List ℕ };

    ghost view = { λ p. p.words.items };
}

impl Model for PlaceSet {
    ghost use Rattle.std.specs.Prelude.{List, ℕ};

    ghost Value = { List (List ℕ) };

    ghost view = { λ s. s.pages.items };
}

impl PlaceSet {
    /// No place.
    pub(crate) fn new(alloc: Global) -> PlaceSet
        ensures { result ≡ [] }
    {
        PlaceSet {
            pages: Vec::new(alloc),
        }
    }

    /// These places.
    pub(crate) fn of(alloc: Global, places: &[u32]) -> Result<PlaceSet, NoMemory>
        ensures { IfOk result (λ set. (p : ℕ) → has set p ≡ list_any (λ q. p == q) places.now) }
    {
        let mut set = PlaceSet::new(alloc);
        set.add_all(places)?;
        Ok(set)
    }

    /// Puts a place into the set.
    pub(crate) fn add(&mut self, place: u32) -> Result<(), NoMemory>
        ensures { OnOk result ((p : ℕ) → has self.new p ≡ (has self.old p || p == place)) }
    {
        let page = place as usize / 65536;
        grow_pages(&mut self.pages, page + 1)?;
        self.pages[page].add(place % 65536)
    }

    /// Puts places into the set.
    pub(crate) fn add_all(&mut self, places: &[u32]) -> Result<(), NoMemory>
        ensures { OnOk result ((p : ℕ)
            → has self.new p ≡ (has self.old p || list_any (λ q. p == q) places.now)) }
    {
        for place in places {
            self.add(*place)?;
        }
        Ok(())
    }

    /// Whether the place is in the set.
    pub(crate) fn has(&self, place: u32) -> bool
        ensures { result ≡ has self.now place }
    {
        match self.pages.get(place as usize / 65536) {
            Some(page) => page.has(place % 65536),
            None => false,
        }
    }

    /// Keeps the places that are in the other set too.
    pub(crate) fn keep(&mut self, other: &PlaceSet)
        ensures { (p : ℕ) → has self.new p ≡ (has self.old p && has other.now p) }
    {
        meet_pages(Meeting::And, &mut self.pages, other.pages.as_slice());
    }

    /// Takes the places of the other set out.
    pub(crate) fn remove(&mut self, other: &PlaceSet)
        ensures { (p : ℕ) → has self.new p ≡ (has self.old p && not (has other.now p)) }
    {
        meet_pages(Meeting::Without, &mut self.pages, other.pages.as_slice());
    }

    /// How many of the places are in the set.
    pub(crate) fn count(&self, places: &[u32]) -> usize
        ensures { result ≡ count_by (has self.now) places.now }
    {
        let mut count = 0;
        for place in places {
            if self.has(*place) {
                count += 1;
            }
        }
        count
    }
}

impl Page {
    fn add(&mut self, k: u32) -> Result<(), NoMemory>
        requires { k < 65536 }
        ensures { OnOk result ((j : ℕ) → word_has self.new j ≡ (word_has self.old j || j == k)) }
    {
        let word = k as usize / 64;
        grow_words(&mut self.words, word + 1)?;
        self.words[word] = with_bit(self.words[word], k % 64);
        Ok(())
    }

    fn meet(&mut self, how: Meeting, other: &[u64])
        ensures { (k : ℕ) → word_has self.new k
            ≡ met how (word_has self.old k) (word_has other.now k) }
    {
        meet_words(how, &mut self.words, other);
    }

    fn words(&self) -> &[u64]
        ensures { result.now ≡ self.now }
    {
        self.words.as_slice()
    }

    fn has(&self, k: u32) -> bool
        ensures { result ≡ word_has self.now k }
    {
        match self.words.get(k as usize / 64) {
            Some(word) => bit_is_set(*word, k % 64),
            None => false,
        }
    }
}

/// As many pages at least, the further ones without places.
fn grow_pages(pages: &mut Vec<Page>, count: usize) -> Result<(), NoMemory>
    ensures { OnOk result ((count ≤ length pages.new.items)
        × ((i : ℕ) → slice_index_or pages.new.items i [] ≡ slice_index_or pages.old.items i [])) }
{
    let alloc = *pages.allocator();
    while pages.len() < count {
        pages.push(Page {
            words: Vec::new(alloc),
        })?;
    }
    Ok(())
}

/// As many words at least, the further ones without bits.
fn grow_words(words: &mut Vec<u64>, count: usize) -> Result<(), NoMemory>
    ensures { OnOk result ((count ≤ length words.new.items)
        × ((i : ℕ) → slice_index words.new.items i ≡ slice_index words.old.items i)) }
{
    if words.len() < count {
        words.resize(count, 0)?;
    }
    Ok(())
}

/// The pages, as they meet others place by place.
fn meet_pages(how: Meeting, pages: &mut [Page], other: &[Page])
    ensures { (p : ℕ) → has pages.new p ≡ met how (has pages.old p) (has other.now p) }
{
    for i in 0..pages.len() {
        let page = &mut pages[i];
        page.meet(how, words_of(other, i));
    }
}

/// The words of a page, or none past the end.
fn words_of(pages: &[Page], i: usize) -> &[u64]
    ensures { result.now ≡ slice_index_or pages.now i [] }
{
    match pages.get(i) {
        Some(page) => page.words(),
        None => &[],
    }
}

/// The words, as they meet others bit by bit.
fn meet_words(how: Meeting, words: &mut [u64], other: &[u64])
    ensures { (k : ℕ) → word_has words.new k
        ≡ met how (word_has words.old k) (word_has other.now k) }
{
    for i in 0..words.len() {
        words[i] = meet(how, words[i], word_at(other, i));
    }
}

/// A word, or one without bits past the end.
fn word_at(words: &[u64], i: usize) -> u64
    ensures { result ≡ slice_index words.now i }
{
    if i < words.len() { words[i] } else { 0 }
}

/// Two words, as they meet bit by bit.
fn meet(how: Meeting, a: u64, b: u64) -> u64
    ensures { (k : ℕ) → k < 64 → bit result k ≡ met how (bit a k) (bit b k) }
{
    match how {
        Meeting::And => a & b,
        Meeting::Without => a & !b,
    }
}

/// The word with a bit set.
fn with_bit(word: u64, k: u32) -> u64
    requires { k < 64 }
    ensures { (j : ℕ) → j < 64 → bit result j ≡ (bit word j || j == k) }
{
    word | (1 << k)
}

/// Whether a word's bit is set.
fn bit_is_set(word: u64, k: u32) -> bool
    requires { k < 64 }
    ensures { result ≡ bit word k }
{
    (word >> k) & 1 == 1
}
