//! The words of one width, found by their addresses.
ghost use Rattle.std.specs.Prelude.{◌≡◌, ℕ, ◌<◌, ◌≤◌, ◌+◌, ◌^◌, ◌++◌, Some, map, length, slice_get, IfOk, IfSome, OnOk};
ghost use Rattle.std.specs.List.{position_from};
ghost use Rattle.std.specs.Option.{option_or};
ghost use Rattle.soc_dump.specs.Covering.{covers, owner_in};
ghost use Rattle.soc_dump.specs.Memory.{word_in, word_interval, stack_of};
ghost use Rattle.soc_dump.specs.Views.{memory_entry, thread_entry};

use crate::covering::{FirstCovering, Interval};
use crate::layer::LAYER;
use crate::memory::Region;
use crate::thread::Thread;
use crate::word::{stack_region, word_of_region};
use soc_base::NoMemory;
use std::alloc::Global;
use std::marker::Model;

/// The words of one width in a process's memory, made ready to be found by their addresses: for
/// many words of a dump, where `Dump::word_at` would look at each region for each. Contracts see
/// the regions and the width.
#[derive(Debug, Drop)]
pub struct Words<'a> {
    memory: &'a [Region<'a>],
    threads: &'a [Thread<'a>],
    width: usize,
    table: FirstCovering,
}

impl<'a> Model for Words<'a> {
    ghost use Rattle.soc_dump.specs.Memory.{RegionWords};

    ghost Value = { RegionWords };

    ghost use Rattle.soc_dump.specs.inner.Words.{words_held, AreFound};

    ghost view = { words_held };

    ghost invariant = { AreFound };
}

/// The addresses of the words that a region holds whole.
fn interval_of(region: Region<'_>, width: usize) -> Interval
    requires { 1 ≤ width }
    ensures { result ≡ word_interval width (memory_entry region.entry) }
{
    let count = (region.bytes.len() + 1).saturating_sub(width);
    Interval::from_count(region.start, count as u64)
}

fn intervals_of_memory(
    alloc: Global,
    regions: &[Region<'_>],
    width: usize,
) -> Result<Vec<Interval>, NoMemory>
    requires { 1 ≤ width }
    ensures { IfOk result (λ intervals. intervals.items
        ≡ map (λ region. word_interval width (memory_entry region)) regions.now) }
{
    let intervals: Vec<Interval> = regions
        .iter()
        .map(|region| interval_of(*region, width))
        .collect(alloc)?;
    Ok(intervals)
}

fn intervals_of_stacks(
    alloc: Global,
    threads: &[Thread<'_>],
    width: usize,
) -> Result<Vec<Interval>, NoMemory>
    requires { 1 ≤ width }
    ensures { IfOk result (λ intervals. intervals.items
        ≡ map (λ thread. word_interval width (stack_of (thread_entry thread))) threads.now) }
{
    let intervals: Vec<Interval> = threads
        .iter()
        .map(|thread| interval_of(stack_region(*thread), width))
        .collect(alloc)?;
    Ok(intervals)
}

/// Puts the intervals of regions behind those of a table, whose number is the index of their first.
/// Those of more than a layer never stand in memory together.
fn extend_by_memory(
    alloc: Global,
    table: &mut FirstCovering,
    first: usize,
    regions: &[Region<'_>],
    width: usize,
) -> Result<(), NoMemory>
    requires some { 1 ≤ width }
    requires fits { first + length regions.now < 2 ^ 63 }
    ensures { OnOk result ((x : ℕ) → x < 2 ^ 64 → owner_in table.new x
        ≡ option_or (owner_in table.old x) (position_from (covers x) first
        (map (λ region. word_interval width (memory_entry region)) regions.now))) }
{
    if regions.len() > LAYER {
        let middle = regions.len() / 2;
        let (front, back) = regions.split_at(middle);
        extend_by_memory(alloc, table, first, front, width)?;
        return extend_by_memory(alloc, table, first + middle, back, width);
    }
    let intervals = intervals_of_memory(alloc, regions, width)?;
    table.extend(alloc, first, intervals.as_slice())
}

/// A region of the memory list, or a stack behind them.
fn region_at<'a>(memory: &[Region<'a>], threads: &[Thread<'a>], index: usize) -> Region<'a>
    requires { index < length memory.now + length threads.now }
    ensures { slice_get (map memory_entry memory.now ++ map stack_of (map thread_entry threads.now))
        index ≡ Some (memory_entry result) }
{
    if index < memory.len() {
        memory[index]
    } else {
        stack_region(threads[index - memory.len()])
    }
}

impl<'a> Words<'a> {
    /// The words of the memory list's regions and of the threads' stacks. The table takes 32 bytes
    /// for each of them, and its making besides 16 bytes for each thread and less than 4 MB.
    pub(crate) fn new(
        alloc: Global,
        memory: &'a [Region<'a>],
        threads: &'a [Thread<'a>],
        width: usize,
    ) -> Result<Words<'a>, NoMemory>
        requires some { 1 ≤ width }
        requires fits { width ≤ 8 }
        ensures { IfOk result (λ words. words
            ≡ record {
              regions = map memory_entry memory.now
                  ++ map stack_of (map thread_entry threads.now);
              width = width;
            }) }
    {
        let mut table = FirstCovering::empty(alloc);
        extend_by_memory(alloc, &mut table, 0, memory, width)?;
        let stacks = intervals_of_stacks(alloc, threads, width)?;
        table.extend(alloc, memory.len(), stacks.as_slice())?;
        Ok(Words {
            memory,
            threads,
            width,
            table,
        })
    }

    /// The word at an address, the lowest byte first, from the first region that holds it whole. It
    /// takes no memory, and as many steps as `FirstCovering::at` for the regions and for the stacks.
    pub fn at(&self, address: u64) -> Option<u64>
        ensures value { result ≡ word_in self.now.regions address self.now.width }
        ensures small { IfSome result (λ word. word < 256 ^ self.now.width) }
    {
        let index = self.table.at(address)?;
        let region = region_at(self.memory, self.threads, index);
        Some(word_of_region(region, address, self.width))
    }
}
