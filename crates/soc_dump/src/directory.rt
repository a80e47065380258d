//! The header and the directory of streams.
ghost use Rattle.std.specs.Prelude.{◌≡◌, ◌+◌, ◌*◌, ◌≤◌, ◌==◌, [], ◌∷◌, length, IsTrue};
ghost use Rattle.std.specs.List.{list_any};
ghost use Rattle.soc_dump.specs.Layout.{stream_entry_size};
ghost use Rattle.soc_dump.specs.Part.{is_inside};
ghost use Rattle.soc_dump.specs.Checks.{IsRead};
ghost use Rattle.soc_dump.specs.Directory.{header_checks, directory_of, stream_count_of, stream_at, is_used, stream_checks, directory_checks, streams_named, AllInside};

use crate::error::DumpError;
use crate::field::narrow;
use crate::layout::*;
use crate::part::part_of;
use std::alloc::Global;

/// Where a stream stands, as its entry of the directory names it.
#[derive(Clone, Copy, Debug, PartialEq, Eq)]
pub struct Stream {
    /// What the stream holds.
    pub kind: u32,
    /// How many bytes it has.
    pub size: u32,
    /// Where it begins in the file.
    pub place: u32,
    /// Where its entry stands in the file.
    pub entry: u64,
}

/// Where the directory stands, and how many entries it has.
#[derive(Clone, Copy, Debug, PartialEq, Eq)]
pub struct Directory {
    pub place: u32,
    pub count: u32,
}

/// Reads the header, whose directory then lies in the file.
pub fn read_header(file: &[u8]) -> Result<Directory, DumpError>
    ensures { IsRead result (header_checks file.now)
        (λ directory. (directory.place ≡ directory_of file.now)
        × (directory.count ≡ stream_count_of file.now)
        × IsTrue (is_inside file.now directory.place (stream_entry_size * directory.count))) }
{
    if file.len() < HEADER_SIZE {
        return Err(DumpError::OutOfFile { place: 0 });
    }
    if narrow(file, HEADER_SIGNATURE) != SIGNATURE {
        return Err(DumpError::NoMagic { place: 0 });
    }
    if narrow(file, HEADER_VERSION) != VERSION {
        return Err(DumpError::BadVersion { place: 4 });
    }
    let place = narrow(file, HEADER_DIRECTORY);
    let count = narrow(file, HEADER_COUNT);
    part_of(file, place as u64, STREAM_ENTRY_SIZE as u64 * count as u64)?;
    Ok(Directory { place, count })
}

/// The stream that the entry at a place names.
fn read_stream(file: &[u8], entry: usize) -> Stream
    requires { entry + stream_entry_size ≤ length file.now }
    ensures { result ≡ stream_at file.now entry }
{
    let structure = &file[entry..];
    Stream {
        kind: narrow(structure, STREAM_KIND),
        size: narrow(structure, STREAM_SIZE),
        place: narrow(structure, STREAM_PLACE),
        entry: entry as u64,
    }
}

fn is_used_stream(stream: &Stream) -> bool
    ensures { result ≡ is_used stream.now }
{
    THREAD_LIST <= stream.kind && stream.kind <= SYSTEM_STREAM
}

/// Whether one of the streams is of the kind.
fn has_kind(streams: &[Stream], kind: u32) -> bool
    ensures { result ≡ list_any (λ stream. stream.kind == kind) streams.now }
{
    streams.iter().any(|stream| stream.kind == kind)
}

/// Whether a stream is the first of its kind and lies in the file.
fn check_stream(file: &[u8], earlier: &[Stream], stream: &Stream) -> Result<(), DumpError>
    ensures { IsRead result (stream_checks file.now earlier.now stream.now)
        (λ _. IsTrue (is_inside file.now stream.now.place stream.now.size)) }
{
    if has_kind(earlier, stream.kind) {
        return Err(DumpError::TwoStreams {
            kind: stream.kind,
            place: stream.entry,
        });
    }
    part_of(file, stream.place as u64, stream.size as u64)?;
    Ok(())
}

/// The used streams of a directory, in its order. Each lies in the file, and no two are of one kind.
pub fn read_streams(
    alloc: Global,
    file: &[u8],
    directory: Directory,
) -> Result<Vec<Stream>, DumpError>
    requires { IsTrue (is_inside file.now directory.place (stream_entry_size * directory.count)) }
    ensures { let all = streams_named file.now directory.place directory.count in
        IsRead result (directory_checks file.now [] all)
        (λ streams. (streams.items ≡ all) × AllInside file.now all) }
{
    let mut streams = Vec::new(alloc);
    for index in 0..directory.count {
        let entry = directory.place as usize + index as usize * STREAM_ENTRY_SIZE;
        let stream = read_stream(file, entry);
        if is_used_stream(&stream) {
            check_stream(file, streams.as_slice(), &stream)?;
            streams.push(stream)?;
        }
    }
    Ok(streams)
}
