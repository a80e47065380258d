//! The list of modules.
ghost use Rattle.std.specs.Prelude.{◌≡◌, ◌+◌, ◌≤◌, ◌<◌, ◌^◌, length, map, IfOk, IsTrue};
ghost use Rattle.soc_dump.specs.Covering.{interval_from};
ghost use Rattle.soc_dump.specs.Checks.{IsRead};
ghost use Rattle.soc_dump.specs.Layout.{module_size};
ghost use Rattle.soc_dump.specs.Part.{is_inside};
ghost use Rattle.soc_dump.specs.Entries.{counted, module_of, module_checks, name_checks, string_at};
ghost use Rattle.soc_dump.specs.Dump.{module_list_checks, entries_of};
ghost use Rattle.soc_dump.specs.Views.{module_entry};

use crate::covering::Interval;
use crate::directory::Stream;
use crate::error::DumpError;
use crate::field::{narrow, wide};
use crate::layout::*;
use crate::list::read_list;
use crate::part::part_of;
use crate::utf16::file_name;
use soc_base::{NoMemory, Text};
use soc_text::before;
use std::alloc::Global;

/// A program file or a library that the process had loaded.
#[derive(Debug, Drop)]
pub struct Module<'a> {
    /// The address of its first byte.
    pub base: u64,
    /// How many bytes it takes in memory.
    pub size: u32,
    /// The path that it was loaded from, in UTF-16 with the lower byte of each unit first; of a
    /// longer one the first 2,048 units. Modules may share it.
    pub path: &'a [u8],
    /// The record that names its debug file; of a longer one the first 4,096 bytes. There may be
    /// none, and modules may share it.
    pub code_view: &'a [u8],
}

impl<'a> Module<'a> {
    /// The file name of its path: what follows the last `/` or `\`. It is decoded anew each time. A
    /// surrogate without its partner becomes U+FFFD.
    pub fn name(&self, alloc: Global) -> Result<Text, NoMemory>
        ensures { IfOk result (λ name. name ≡ (module_entry self.now).name) }
    {
        file_name(alloc, self.path)
    }
}

/// The most bytes that count of a path and of a code view record.
const COUNTED: usize = 4_096;

/// The bytes that count.
fn counted(bytes: &[u8]) -> &[u8]
    ensures { result.now ≡ counted bytes.now }
{
    before(bytes, COUNTED)
}

/// The bytes of a module's path.
fn path_bytes(file: &[u8], place: u64) -> Result<&[u8], DumpError>
    requires { place < 2 ^ 32 }
    ensures { IsRead result (name_checks file.now place)
        (λ bytes. bytes.now ≡ string_at file.now place) }
{
    let length = file.len() as u64;
    if length < place + STRING_HEAD as u64 {
        return Err(DumpError::OutOfFile { place });
    }
    let size = narrow(&file[place as usize..], STRING_LENGTH) as u64;
    if length < place + STRING_HEAD as u64 + size {
        return Err(DumpError::OutOfFile { place });
    }
    if size % 2 != 0 {
        return Err(DumpError::BadStream {
            kind: MODULE_LIST,
            place,
        });
    }
    let rest = &file[place as usize + STRING_HEAD..];
    Ok(&rest[..size as usize])
}

fn read_module<'a>(file: &'a [u8], entry: &[u8]) -> Result<Module<'a>, DumpError>
    requires { module_size ≤ length entry.now }
    ensures { IsRead result (module_checks file.now entry.now)
        (λ loaded. module_entry loaded ≡ module_of file.now entry.now) }
{
    let path = path_bytes(file, narrow(entry, MODULE_NAME_PLACE) as u64)?;
    let place = narrow(entry, MODULE_CODE_VIEW_PLACE) as u64;
    let code_view = part_of(file, place, narrow(entry, MODULE_CODE_VIEW_SIZE) as u64)?;
    Ok(Module {
        base: wide(entry, MODULE_BASE),
        size: narrow(entry, MODULE_LENGTH),
        path: counted(path),
        code_view: counted(code_view),
    })
}

/// The modules of a list.
pub fn read_modules<'a>(
    alloc: Global,
    file: &'a [u8],
    stream: Stream,
) -> Result<Vec<Module<'a>>, DumpError>
    requires { IsTrue (is_inside file.now stream.place stream.size) }
    ensures { IsRead result (module_list_checks file.now stream)
        (λ modules. map module_entry modules.items
        ≡ map (module_of file.now) (entries_of file.now module_size stream)) }
{
    let list = read_list(file, stream, MODULE_SIZE)?;
    let mut modules = Vec::with_capacity(alloc, list.count)?;
    for index in 0..list.count {
        let entry = &file[list.first + index * MODULE_SIZE..];
        let loaded = read_module(file, entry)?;
        modules.push(loaded)?;
    }
    Ok(modules)
}

/// The addresses that each module has.
pub fn intervals_of_modules(
    alloc: Global,
    modules: &[Module<'_>],
) -> Result<Vec<Interval>, NoMemory>
    ensures { IfOk result (λ intervals. intervals.items
        ≡ map (λ loaded. interval_from loaded.base loaded.size) modules.now) }
{
    let intervals: Vec<Interval> = modules
        .iter()
        .map(|module| Interval::from_count(module.base, u64::from(module.size)))
        .collect(alloc)?;
    Ok(intervals)
}
