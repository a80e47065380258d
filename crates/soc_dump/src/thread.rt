//! The list of threads.
ghost use Rattle.std.specs.Prelude.{◌≡◌, ◌≤◌, length, map, IsTrue};
ghost use Rattle.soc_dump.specs.Checks.{IsRead};
ghost use Rattle.soc_dump.specs.Layout.{thread_size};
ghost use Rattle.soc_dump.specs.Part.{is_inside};
ghost use Rattle.soc_dump.specs.Entries.{thread_of, thread_checks};
ghost use Rattle.soc_dump.specs.Dump.{thread_list_checks, entries_of};
ghost use Rattle.soc_dump.specs.Views.{thread_entry};

use crate::directory::Stream;
use crate::error::DumpError;
use crate::field::{narrow, wide};
use crate::layout::*;
use crate::list::read_list;
use crate::part::part_of;
use std::alloc::Global;

/// A thread, as it stood when the dump was written.
#[derive(Clone, Copy, Debug)]
pub struct Thread<'a> {
    /// The system's number for the thread.
    pub id: u32,
    /// The address of the stack's first byte.
    pub stack_start: u64,
    /// The bytes of the stack; there may be none.
    pub stack: &'a [u8],
    /// The registers, as the processor's context lays them out.
    pub context: &'a [u8],
}

fn read_thread<'a>(file: &'a [u8], entry: &[u8]) -> Result<Thread<'a>, DumpError>
    requires { thread_size ≤ length entry.now }
    ensures { IsRead result (thread_checks file.now entry.now)
        (λ thread. thread_entry thread ≡ thread_of file.now entry.now) }
{
    let stack_place = narrow(entry, THREAD_STACK_PLACE) as u64;
    let stack = part_of(file, stack_place, narrow(entry, THREAD_STACK_SIZE) as u64)?;
    let context_place = narrow(entry, THREAD_CONTEXT_PLACE) as u64;
    let context = part_of(
        file,
        context_place,
        narrow(entry, THREAD_CONTEXT_SIZE) as u64,
    )?;
    Ok(Thread {
        id: narrow(entry, THREAD_ID),
        stack_start: wide(entry, THREAD_STACK_START),
        stack,
        context,
    })
}

/// The threads of a list.
pub fn read_threads<'a>(
    alloc: Global,
    file: &'a [u8],
    stream: Stream,
) -> Result<Vec<Thread<'a>>, DumpError>
    requires { IsTrue (is_inside file.now stream.place stream.size) }
    ensures { IsRead result (thread_list_checks file.now stream)
        (λ threads. map thread_entry threads.items
        ≡ map (thread_of file.now) (entries_of file.now thread_size stream)) }
{
    let list = read_list(file, stream, THREAD_SIZE)?;
    let mut threads = Vec::with_capacity(alloc, list.count)?;
    for index in 0..list.count {
        let thread = read_thread(file, &file[list.first + index * THREAD_SIZE..])?;
        threads.push(thread)?;
    }
    Ok(threads)
}
