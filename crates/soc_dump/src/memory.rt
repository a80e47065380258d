//! The list of memory regions.
ghost use Rattle.std.specs.Prelude.{◌≡◌, ◌≤◌, length, map, IsTrue};
ghost use Rattle.soc_dump.specs.Checks.{IsRead};
ghost use Rattle.soc_dump.specs.Layout.{memory_size};
ghost use Rattle.soc_dump.specs.Part.{is_inside};
ghost use Rattle.soc_dump.specs.Entries.{memory_of, memory_checks};
ghost use Rattle.soc_dump.specs.Dump.{memory_list_checks, entries_of};
ghost use Rattle.soc_dump.specs.Views.{memory_entry};

use crate::directory::Stream;
use crate::error::DumpError;
use crate::field::{narrow, wide};
use crate::layout::*;
use crate::list::read_list;
use crate::part::part_of;
use std::alloc::Global;

/// Some of the process's memory.
#[derive(Clone, Copy, Debug)]
pub struct Region<'a> {
    /// The address of the first byte.
    pub start: u64,
    pub bytes: &'a [u8],
}

fn read_region<'a>(file: &'a [u8], entry: &[u8]) -> Result<Region<'a>, DumpError>
    requires { memory_size ≤ length entry.now }
    ensures { IsRead result (memory_checks file.now entry.now)
        (λ region. memory_entry region ≡ memory_of file.now entry.now) }
{
    let place = narrow(entry, MEMORY_PLACE) as u64;
    let bytes = part_of(file, place, narrow(entry, MEMORY_LENGTH) as u64)?;
    Ok(Region {
        start: wide(entry, MEMORY_START),
        bytes,
    })
}

/// The regions of a list.
pub fn read_memory<'a>(
    alloc: Global,
    file: &'a [u8],
    stream: Stream,
) -> Result<Vec<Region<'a>>, DumpError>
    requires { IsTrue (is_inside file.now stream.place stream.size) }
    ensures { IsRead result (memory_list_checks file.now stream)
        (λ regions. map memory_entry regions.items
        ≡ map (memory_of file.now) (entries_of file.now memory_size stream)) }
{
    let list = read_list(file, stream, MEMORY_SIZE)?;
    let mut regions = Vec::with_capacity(alloc, list.count)?;
    for index in 0..list.count {
        let region = read_region(file, &file[list.first + index * MEMORY_SIZE..])?;
        regions.push(region)?;
    }
    Ok(regions)
}
