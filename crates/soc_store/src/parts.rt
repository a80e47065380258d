// A field's values in blocks, so that one more moves few of them.
ghost use Rattle.std.specs.Prelude.{◌≡◌, ◌<◌, ◌≤◌, ◌+◌, ◌^◌, ℕ, List, [], Some, OnOk, OnErr, length, take, drop, map, slice_get, slice_index_or, slice_set};
ghost use Rattle.std.specs.List.{AllByRecursion};
ghost use Rattle.std.specs.Option.{IfSome};
ghost use Rattle.std.specs.declared.cmp.Ordering.TheVariants.{Less, Greater};
ghost use Rattle.soc_schema.specs.Orders.{value_cmp};
ghost use Rattle.soc_schema.specs.Tables.{Rising};
ghost use Rattle.soc_store.specs.inner.Parts.{AreCounted, AreFilled, AreParts, blocks_of, joined, postings_in};
ghost use Rattle.soc_store.specs.inner.Postings.{Posting, with_posting, without_posting};

use crate::block::Block;
use crate::key::key_of;
use crate::term::Term;
use soc_base::NoMemory;
use soc_schema::Value;
use std::alloc::Global;
use std::cmp::Ordering;

/// A block with so many values is cut in two.
const MOST_VALUES: usize = 256;

/// A block, and how many values there are up to its end.
#[derive(Debug, Drop)]
pub(crate) struct Part {
    pub(crate) block: Block,
    end: usize,
}

/// One more row that has the value.
pub(crate) fn add_value(
    alloc: Global,
    parts: &mut Vec<Part>,
    value: &Value,
    place: u32,
) -> Result<(), NoMemory>
    requires { AreParts parts.old.items }
    ensures parts { AreParts parts.new.items }
    ensures ok { OnOk result (postings_in parts.new.items
        ≡ with_posting (Some value.now) place
        (postings_in parts.old.items)) }
    ensures err { OnErr result (postings_in parts.new.items ≡ postings_in parts.old.items) }
{
    begin(alloc, parts)?;
    let k = part_of(parts, value);
    let block = &mut parts[k].block;
    block.add(alloc, value, place)?;
    settle(alloc, parts, k);
    Ok(())
}

/// One row less that has the value.
pub(crate) fn remove_value(parts: &mut Vec<Part>, value: &Value, place: u32)
    requires { AreParts parts.old.items }
    ensures parts { AreParts parts.new.items }
    ensures left { postings_in parts.new.items
        ≡ without_posting (Some value.now) place
        (postings_in parts.old.items) }
{
    if parts.is_empty() {
        return;
    }
    let k = part_of(parts, value);
    let block = &mut parts[k].block;
    block.remove(value, place);
    drop_empty(parts, k);
    recount(parts);
}

/// How many values there are.
pub(crate) fn total(parts: &[Part]) -> usize
    requires { AreCounted 0 parts.now }
    ensures { result ≡ length (postings_in parts.now) }
{
    match parts.last() {
        Some(part) => part.end,
        None => 0,
    }
}

/// What is kept of the value at `i`. It is found at once in the block `near`, which is the one where it was found
/// afterwards.
pub(crate) fn term_near<'a>(parts: &'a [Part], i: usize, near: &mut usize) -> &'a Term
    requires counted { AreCounted 0 parts.now }
    requires within { i < length (postings_in parts.now) }
    ensures { slice_get (postings_in parts.now) i ≡ Some result.now }
{
    let (block, at) = block_near(parts, i, near);
    block.term_at(at)
}

/// How many rows have the value at `i`, which is found in the same way.
pub(crate) fn count_near(parts: &[Part], i: usize, near: &mut usize) -> usize
    requires counted { AreCounted 0 parts.now }
    requires within { i < length (postings_in parts.now) }
    ensures { IfSome (slice_get (postings_in parts.now) i) (λ t. result ≡ length t.places) }
{
    let (block, at) = block_near(parts, i, near);
    block.count_at(at)
}

/// The block that has the value at `i`, and where it stands there.
fn block_near<'a>(parts: &'a [Part], i: usize, near: &mut usize) -> (&'a Block, usize)
    requires counted { AreCounted 0 parts.now }
    requires within { i < length (postings_in parts.now) }
    ensures within { result.1 < length result.0.now }
    ensures there { slice_get (postings_in parts.now) i ≡ slice_get result.0.now result.1 }
{
    let k = part_near(parts, i, *near);
    *near = k;
    let part = &parts[k];
    let start = part.end - part.block.len();
    (&part.block, i - start)
}

/// The block that has the value at `i`, which may be the block `near`.
fn part_near(parts: &[Part], i: usize, near: usize) -> usize
    requires counted { AreCounted 0 parts.now }
    requires within { i < length (postings_in parts.now) }
    ensures within { result < length parts.now }
    ensures end { (d : Part) → i < (slice_index_or parts.now result d).end }
    ensures start { (d : Part) → (k : ℕ) → k < result → (slice_index_or parts.now k d).end ≤ i }
{
    if near < parts.len() {
        let part = &parts[near];
        if i < part.end && part.end <= i.saturating_add(part.block.len()) {
            return near;
        }
    }
    part_at(parts, i)
}

/// The block that has the value at `i`.
fn part_at(parts: &[Part], i: usize) -> usize
    requires counted { AreCounted 0 parts.now }
    requires within { i < length (postings_in parts.now) }
    ensures within { result < length parts.now }
    ensures end { (d : Part) → i < (slice_index_or parts.now result d).end }
    ensures start { (d : Part) → (k : ℕ) → k < result → (slice_index_or parts.now k d).end ≤ i }
{
    let mut low = 0;
    let mut high = parts.len() - 1;
    while low < high {
        let middle = low + (high - low) / 2;
        if i < parts[middle].end {
            high = middle;
        } else {
            low = middle + 1;
        }
    }
    low
}

/// The block that the value is in, or else the one that it would go to.
pub(crate) fn part_of(parts: &[Part], value: &Value) -> usize
    requires some { 0 < length parts.now }
    requires filled { AreFilled (blocks_of parts.now) }
    requires rising { Rising (λ t. t.value) value_cmp (postings_in parts.now) }
    ensures within { result < length parts.now }
    ensures before { AllByRecursion (λ t. value_cmp value.now t.value ≡ Greater)
        (joined (take result (blocks_of parts.now))) }
    ensures after { AllByRecursion (λ t. value_cmp value.now t.value ≡ Less)
        (joined (drop (result + 1) (blocks_of parts.now))) }
{
    let key = key_of(value);
    let mut low = 0;
    let mut high = parts.len() - 1;
    while low < high {
        let middle = high - (high - low) / 2;
        match parts[middle].block.compare_first(key, value) {
            Ordering::Less => low = middle,
            Ordering::Equal => low = middle,
            Ordering::Greater => high = middle - 1,
        }
    }
    low
}

/// Makes room for the first value, and refuses one more than can be counted.
fn begin(alloc: Global, parts: &mut Vec<Part>) -> Result<(), NoMemory>
    requires { AreParts parts.old.items }
    ensures parts { AreParts parts.new.items }
    ensures same { postings_in parts.new.items ≡ postings_in parts.old.items }
    ensures some { OnOk result (0 < length parts.new.items) }
    ensures room { OnOk result (length (postings_in parts.new.items) + 1 < 2 ^ 64) }
{
    if total(parts) == usize::MAX {
        return Err(NoMemory);
    }
    if parts.is_empty() {
        let block = Block::new(alloc);
        parts.push(Part { block, end: 0 })?;
    }
    Ok(())
}

/// Cuts the block where it has too many values, and counts anew.
fn settle(alloc: Global, parts: &mut Vec<Part>, k: usize)
    requires within { k < length parts.old.items }
    requires filled { AreFilled (blocks_of parts.old.items) }
    requires rising { Rising (λ t. t.value) value_cmp (postings_in parts.old.items) }
    requires room { length (postings_in parts.old.items) < 2 ^ 64 }
    ensures parts { AreParts parts.new.items }
    ensures same { postings_in parts.new.items ≡ postings_in parts.old.items }
{
    if parts[k].block.len() >= MOST_VALUES {
        cut(alloc, parts, k);
    }
    recount(parts);
}

/// Takes the block out where it is empty and not the first.
fn drop_empty(parts: &mut Vec<Part>, k: usize)
    requires within { k < length parts.old.items }
    requires filled { (block : List Posting) → 0 < length block
        → AreFilled (slice_set (blocks_of parts.old.items) k block) }
    ensures filled { AreFilled (blocks_of parts.new.items) }
    ensures same { postings_in parts.new.items ≡ postings_in parts.old.items }
{
    if k > 0 && parts[k].block.len() == 0 {
        let _ = parts.remove(k);
    }
}

/// Cuts the block in two, unless memory is wanting.
fn cut(alloc: Global, parts: &mut Vec<Part>, k: usize)
    requires within { k < length parts.old.items }
    requires long { 2 ≤ length (slice_index_or (blocks_of parts.old.items) k []) }
    requires filled { AreFilled (blocks_of parts.old.items) }
    ensures filled { AreFilled (blocks_of parts.new.items) }
    ensures same { postings_in parts.new.items ≡ postings_in parts.old.items }
{
    let block = Block::new(alloc);
    let Ok(()) = parts.insert(k + 1, Part { block, end: 0 }) else {
        return;
    };
    let front = &mut parts[k].block;
    match front.halve() {
        Ok(back) => parts[k + 1].block = back,
        Err(_) => {
            let _ = parts.remove(k + 1);
        }
    }
}

/// Counts the values anew.
fn recount(parts: &mut Vec<Part>)
    requires filled { AreFilled (blocks_of parts.old.items) }
    requires rising { Rising (λ t. t.value) value_cmp (postings_in parts.old.items) }
    requires room { length (postings_in parts.old.items) < 2 ^ 64 }
    ensures parts { AreParts parts.new.items }
    ensures same { postings_in parts.new.items ≡ postings_in parts.old.items }
{
    count_ends(parts.as_mut_slice());
}

/// Counts the values up to each block's end.
fn count_ends(parts: &mut [Part])
    requires { length (postings_in parts.old) < 2 ^ 64 }
    ensures blocks { blocks_of parts.new ≡ blocks_of parts.old }
    ensures counted { AreCounted 0 parts.new }
{
    let mut count = 0;
    for part in parts.iter_mut() {
        count += part.block.len();
        part.end = count;
    }
}
