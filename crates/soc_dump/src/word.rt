//! Words of the process's memory.
ghost use Rattle.std.specs.Prelude.{◌≡◌, ◌<◌, ◌≤◌, ◌^◌, ◌++◌, IsTrue, IfSome, find, map};
ghost use Rattle.soc_dump.specs.Memory.{holds_word, word_of, word_in, stack_of};
ghost use Rattle.soc_dump.specs.Views.{memory_entry, thread_entry};

use crate::field::{Field, wide};
use crate::memory::Region;
use crate::thread::Thread;

/// Whether a region has all bytes of a word.
fn holds(region: Region<'_>, address: u64, width: usize) -> bool
    ensures { result ≡ holds_word address width (memory_entry region.entry) }
{
    if address < region.start {
        return false;
    }
    let offset = address - region.start;
    let length = region.bytes.len() as u64;
    offset <= length && width as u64 <= length - offset
}

/// A word of a region.
pub fn word_of_region(region: Region<'_>, address: u64, width: usize) -> u64
    requires some { 1 ≤ width }
    requires fits { width ≤ 8 }
    requires held { IsTrue (holds_word address width (memory_entry region)) }
    ensures value { result ≡ word_of address width (memory_entry region.entry) }
    ensures small { result < 256 ^ width }
{
    let offset = (address - region.start) as usize;
    wide(region.bytes, Field { offset, width })
}

/// The stack of a thread.
pub fn stack_region<'a>(thread: Thread<'a>) -> Region<'a>
    ensures { memory_entry result ≡ stack_of (thread_entry thread.entry) }
{
    Region {
        start: thread.stack_start,
        bytes: thread.stack,
    }
}

/// The first region that holds a word whole.
fn find_region<'a>(regions: &[Region<'a>], address: u64, width: usize) -> Option<Region<'a>>
    ensures { result ≡ find (λ region. holds_word address width (memory_entry region)) regions.now }
{
    regions
        .iter()
        .copied()
        .find(|region| holds(*region, address, width))
}

/// The first thread whose stack holds a word whole.
fn find_stack<'a>(threads: &[Thread<'a>], address: u64, width: usize) -> Option<Thread<'a>>
    ensures { result ≡ find (λ thread. holds_word address width (stack_of (thread_entry thread)))
        threads.now }
{
    threads
        .iter()
        .copied()
        .find(|thread| holds(stack_region(*thread), address, width))
}

/// The word of `width` bytes at an address, from the first region that holds it whole, or from the
/// first such stack.
pub fn find_word(
    regions: &[Region<'_>],
    threads: &[Thread<'_>],
    address: u64,
    width: usize,
) -> Option<u64>
    requires some { 1 ≤ width }
    requires fits { width ≤ 8 }
    ensures value { result ≡ word_in
        (map memory_entry regions.now ++ map stack_of (map thread_entry threads.now)) address
        width }
    ensures small { IfSome result (λ word. word < 256 ^ width) }
{
    if let Some(region) = find_region(regions, address, width) {
        return Some(word_of_region(region, address, width));
    }
    let thread = find_stack(threads, address, width)?;
    Some(word_of_region(stack_region(thread), address, width))
}
