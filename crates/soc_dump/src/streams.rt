//! The used streams of a file, each found by its kind.
ghost use Rattle.std.specs.Prelude.{◌≡◌, map};
ghost use Rattle.soc_dump.specs.Checks.{IsRead};
ghost use Rattle.soc_dump.specs.Layout.{thread_list, thread_size, module_list, module_size, memory_list, memory_size, exception_stream, system_stream};
ghost use Rattle.soc_dump.specs.Directory.{AllInside, stream_of};
ghost use Rattle.soc_dump.specs.Entries.{thread_of, module_of, memory_of, exception_of, system_of};
ghost use Rattle.soc_dump.specs.Dump.{asked, listed, told, thread_list_checks, module_list_checks, memory_list_checks, exception_stream_checks, system_stream_checks};
ghost use Rattle.soc_dump.specs.Views.{thread_entry, module_entry, memory_entry, exception_view};

use crate::directory::Stream;
use crate::error::DumpError;
use crate::exception::{Exception, read_exception};
use crate::layout::{EXCEPTION_STREAM, MEMORY_LIST, MODULE_LIST, SYSTEM_STREAM, THREAD_LIST};
use crate::memory::{Region, read_memory};
use crate::modules::{Module, read_modules};
use crate::system::{System, read_system};
use crate::thread::{Thread, read_threads};
use std::alloc::Global;

/// The stream of a kind.
fn find_stream(streams: &[Stream], kind: u32) -> Option<Stream>
    ensures { result ≡ stream_of kind streams.now }
{
    streams.iter().copied().find(|stream| stream.kind == kind)
}

pub fn find_threads<'a>(
    alloc: Global,
    file: &'a [u8],
    streams: &[Stream],
) -> Result<Vec<Thread<'a>>, DumpError>
    requires { AllInside file.now streams.now }
    ensures { let stream = stream_of thread_list streams.now in
        IsRead result (asked (thread_list_checks file.now) stream)
        (λ threads. map thread_entry threads.items
        ≡ listed file.now thread_size (thread_of file.now) stream) }
{
    let Some(stream) = find_stream(streams, THREAD_LIST) else {
        return Ok(Vec::new(alloc));
    };
    read_threads(alloc, file, stream)
}

pub fn find_modules<'a>(
    alloc: Global,
    file: &'a [u8],
    streams: &[Stream],
) -> Result<Vec<Module<'a>>, DumpError>
    requires { AllInside file.now streams.now }
    ensures { let stream = stream_of module_list streams.now in
        IsRead result (asked (module_list_checks file.now) stream)
        (λ modules. map module_entry modules.items
        ≡ listed file.now module_size (module_of file.now) stream) }
{
    let Some(stream) = find_stream(streams, MODULE_LIST) else {
        return Ok(Vec::new(alloc));
    };
    read_modules(alloc, file, stream)
}

pub fn find_memory<'a>(
    alloc: Global,
    file: &'a [u8],
    streams: &[Stream],
) -> Result<Vec<Region<'a>>, DumpError>
    requires { AllInside file.now streams.now }
    ensures { let stream = stream_of memory_list streams.now in
        IsRead result (asked (memory_list_checks file.now) stream)
        (λ regions. map memory_entry regions.items
        ≡ listed file.now memory_size (memory_of file.now) stream) }
{
    let Some(stream) = find_stream(streams, MEMORY_LIST) else {
        return Ok(Vec::new(alloc));
    };
    read_memory(alloc, file, stream)
}

pub fn find_exception<'a>(
    file: &'a [u8],
    streams: &[Stream],
) -> Result<Option<Exception<'a>>, DumpError>
    requires { AllInside file.now streams.now }
    ensures { let stream = stream_of exception_stream streams.now in
        IsRead result (asked (exception_stream_checks file.now) stream)
        (λ exception. exception_view exception ≡ told file.now (exception_of file.now) stream) }
{
    let Some(stream) = find_stream(streams, EXCEPTION_STREAM) else {
        return Ok(None);
    };
    Ok(Some(read_exception(file, stream)?))
}

pub fn find_system(file: &[u8], streams: &[Stream]) -> Result<Option<System>, DumpError>
    requires { AllInside file.now streams.now }
    ensures { let stream = stream_of system_stream streams.now in
        IsRead result (asked (system_stream_checks file.now) stream)
        (λ system. system ≡ told file.now system_of stream) }
{
    let Some(stream) = find_stream(streams, SYSTEM_STREAM) else {
        return Ok(None);
    };
    Ok(Some(read_system(file, stream)?))
}
