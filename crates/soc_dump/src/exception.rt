//! The exception that ended the process.
ghost use Rattle.std.specs.Prelude.{◌≡◌, ◌≤◌, ◌∷◌, length, drop, IsTrue};
ghost use Rattle.soc_dump.specs.Checks.{IsRead};
ghost use Rattle.soc_dump.specs.Layout.{exception_size};
ghost use Rattle.soc_dump.specs.Part.{is_inside};
ghost use Rattle.soc_dump.specs.Entries.{exception_of, exception_checks, parameters_of};
ghost use Rattle.soc_dump.specs.Dump.{exception_stream_checks};
ghost use Rattle.soc_dump.specs.Views.{exception_entry};

use crate::directory::Stream;
use crate::error::DumpError;
use crate::field::{narrow, wide};
use crate::layout::*;
use crate::part::part_of;
use byteorder::{ByteOrder, LittleEndian};

/// The exception or signal that the dump was written for.
#[derive(Clone, Copy, Debug)]
pub struct Exception<'a> {
    /// The number of the thread that it happened on.
    pub thread: u32,
    /// The system's code for it.
    pub code: u32,
    /// The address where it happened.
    pub address: u64,
    /// How many of the parameters count, as the file says.
    pub count: u32,
    /// The parameters.
    pub info: [u64; 15],
    /// The registers of the thread as it happened; there may be none.
    pub context: &'a [u8],
}

/// The parameters of an exception.
fn read_parameters(entry: &[u8]) -> [u64; 15]
    requires { exception_size ≤ length entry.now }
    ensures { result ≡ parameters_of entry.now }
{
    let mut info = [0; 15];
    for index in 0..15 {
        info[index] = LittleEndian::read_u64(&entry[EXCEPTION_PARAMETERS + index * 8..]);
    }
    info
}

fn read_entry<'a>(file: &'a [u8], entry: &[u8]) -> Result<Exception<'a>, DumpError>
    requires { exception_size ≤ length entry.now }
    ensures { IsRead result (exception_checks file.now entry.now)
        (λ exception. exception_entry exception ≡ exception_of file.now entry.now) }
{
    let place = narrow(entry, EXCEPTION_CONTEXT_PLACE) as u64;
    let context = part_of(file, place, narrow(entry, EXCEPTION_CONTEXT_SIZE) as u64)?;
    Ok(Exception {
        thread: narrow(entry, EXCEPTION_THREAD),
        code: narrow(entry, EXCEPTION_CODE),
        address: wide(entry, EXCEPTION_ADDRESS),
        count: narrow(entry, EXCEPTION_COUNT),
        info: read_parameters(entry),
        context,
    })
}

/// The exception of a stream.
pub fn read_exception(file: &[u8], stream: Stream) -> Result<Exception<'_>, DumpError>
    requires { IsTrue (is_inside file.now stream.place stream.size) }
    ensures { IsRead result (exception_stream_checks file.now stream)
        (λ exception. exception_entry exception
        ≡ exception_of file.now (drop stream.place file.now)) }
{
    if (stream.size as usize) < EXCEPTION_SIZE {
        return Err(DumpError::BadStream {
            kind: stream.kind,
            place: stream.place as u64,
        });
    }
    read_entry(file, &file[stream.place as usize..])
}
