//! The system that a process ran on.
ghost use Rattle.std.specs.Prelude.{◌≡◌, drop, IsTrue};
ghost use Rattle.soc_dump.specs.Checks.{IsRead};
ghost use Rattle.soc_dump.specs.Part.{is_inside};
ghost use Rattle.soc_dump.specs.Entries.{system_of};
ghost use Rattle.soc_dump.specs.Dump.{system_stream_checks};

use crate::directory::Stream;
use crate::error::DumpError;
use crate::field::narrow;
use crate::layout::*;

/// The processor and the system that the process ran on.
#[derive(Clone, Copy, Debug, PartialEq, Eq)]
pub struct System {
    /// The processor's architecture.
    pub arch: u16,
    /// How many processors the machine had.
    pub processors: u8,
    /// The system's version.
    pub major: u32,
    /// The version's second number.
    pub minor: u32,
    /// The version's build number.
    pub build: u32,
    /// The kind of system.
    pub platform: u32,
}

/// The system of a stream.
pub fn read_system(file: &[u8], stream: Stream) -> Result<System, DumpError>
    requires { IsTrue (is_inside file.now stream.place stream.size) }
    ensures { IsRead result (system_stream_checks file.now stream)
        (λ system. system ≡ system_of (drop stream.place file.now)) }
{
    if (stream.size as usize) < SYSTEM_SIZE {
        return Err(DumpError::BadStream {
            kind: stream.kind,
            place: stream.place as u64,
        });
    }
    let entry = &file[stream.place as usize..];
    Ok(System {
        arch: narrow(entry, SYSTEM_ARCHITECTURE) as u16,
        processors: narrow(entry, SYSTEM_PROCESSORS) as u8,
        major: narrow(entry, SYSTEM_MAJOR),
        minor: narrow(entry, SYSTEM_MINOR),
        build: narrow(entry, SYSTEM_BUILD),
        platform: narrow(entry, SYSTEM_PLATFORM),
    })
}
