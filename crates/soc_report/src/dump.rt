//! The dump of a crash, and what it tells a report.
ghost use Rattle.std.specs.Prelude.{◌≡◌, ◌==◌, IfOk, option_map, position};
ghost use Rattle.soc_dump.specs.Views.{exception_entry};
ghost use Rattle.soc_raw.specs.RawCrash.{crash_of};
ghost use Rattle.soc_report.specs.Dumps as spec;

use crate::streams::lists_modules;
use soc_base::{NoMemory, Text, TextList};
use soc_dump::{Dump, DumpError, Exception, System, Thread, crash_reason};
use soc_raw::RawCrash;
use std::alloc::Global;

/// The name of the crashed process's dump.
const DUMP_NAME: &str = "upload_file_minidump";

/// What became of a crash's dump.
#[derive(Debug, Drop)]
pub enum Reading<'a> {
    /// There is none.
    Absent,
    /// A check refused it.
    Refused(DumpError),
    /// It was read.
    Read(Dump<'a>),
}

/// Reads a dump.
fn read_dump(alloc: Global, bytes: &[u8]) -> Result<Reading<'_>, NoMemory>
    ensures { IfOk result (λ reading. reading ≡ spec.read_dump bytes.now) }
{
    match Dump::read(alloc, bytes) {
        Ok(dump) => Ok(Reading::Read(dump)),
        Err(DumpError::NoMemory) => Err(NoMemory),
        Err(error) => Ok(Reading::Refused(error)),
    }
}

/// Reads the dump of a crash.
pub fn reading_of(alloc: Global, raw: &RawCrash) -> Result<Reading<'_>, NoMemory>
    ensures { IfOk result (λ reading. reading ≡ spec.reading_of (crash_of raw.now)) }
{
    match raw.dumps.get(DUMP_NAME) {
        Some(bytes) => read_dump(alloc, bytes),
        None => Ok(Reading::Absent),
    }
}

impl<'a> Reading<'a> {
    /// The dump, where it was read.
    pub fn dump(&self) -> Option<&Dump<'a>>
        ensures { option_map (λ dump. dump.now) result ≡ spec.dump_in self.now }
    {
        match self {
            Reading::Absent => None,
            Reading::Refused(_) => None,
            Reading::Read(dump) => Some(dump),
        }
    }
}

/// The number by which a refusal is noted.
pub fn refusal_number(error: DumpError) -> u64
    ensures { result ≡ spec.refusal_number error }
{
    match error {
        DumpError::NoMagic { place: _ } => 40,
        DumpError::BadVersion { place: _ } => 41,
        DumpError::OutOfFile { place: _ } => 42,
        DumpError::BadStream { kind: _, place: _ } => 43,
        DumpError::TwoStreams { kind: _, place: _ } => 44,
        DumpError::NoMemory => 0,
    }
}

/// The place that a refusal names.
pub fn refusal_place(error: DumpError) -> u64
    ensures { result ≡ spec.refusal_place error }
{
    match error {
        DumpError::NoMagic { place } => place,
        DumpError::BadVersion { place } => place,
        DumpError::OutOfFile { place } => place,
        DumpError::BadStream { kind: _, place } => place,
        DumpError::TwoStreams { kind: _, place } => place,
        DumpError::NoMemory => 0,
    }
}

/// What is noted of a dump that was refused.
fn refusal_text(alloc: Global, error: DumpError) -> Result<Text, NoMemory>
    ensures { IfOk result (λ text. text ≡ spec.refusal_text error) }
{
    let number = refusal_number(error);
    let place = refusal_place(error);
    Ok(Text::from(format!(in alloc; "dump refused {number} at {place}")?))
}

/// What is noted of a dump that isn't there or was refused.
pub fn dump_notes(alloc: Global, reading: &Reading<'_>) -> Result<TextList, NoMemory>
    ensures { IfOk result (λ notes. notes ≡ spec.dump_notes reading.now) }
{
    let mut notes = TextList::new(alloc);
    match reading {
        Reading::Absent => notes.push(Text::of(alloc, "no dump")?)?,
        Reading::Refused(error) => notes.push(refusal_text(alloc, *error)?)?,
        Reading::Read(_) => {}
    }
    Ok(notes)
}

/// How many modules the dump of a crash lists, where it has a list of them.
pub fn module_count(raw: &RawCrash, reading: &Reading<'_>) -> Option<u64>
    requires { reading.now ≡ spec.reading_of (crash_of raw.now) }
    ensures { result ≡ spec.module_count_of (crash_of raw.now) }
{
    let bytes = raw.dumps.get(DUMP_NAME)?;
    let dump = reading.dump()?;
    if lists_modules(bytes) {
        Some(dump.modules().len() as u64)
    } else {
        None
    }
}

/// The place in the list of the first thread with an id.
fn place_of(threads: &[Thread<'_>], id: u32) -> Option<usize>
    ensures { result ≡ position (λ t. t.id == id) threads.now }
{
    for place in 0..threads.len() {
        if threads[place].id == id {
            return Some(place);
        }
    }
    None
}

/// The place in the list of the thread that the exception names.
pub fn crashing_thread(dump: &Dump<'_>) -> Option<usize>
    ensures { result ≡ spec.crashing_thread dump.now }
{
    place_of(dump.threads(), dump.exception()?.thread)
}

/// Why the process ended, in words.
pub fn reason_of(alloc: Global, dump: &Dump<'_>) -> Result<Option<Text>, NoMemory>
    ensures { IfOk result (λ reason. reason ≡ spec.reason_of dump.now) }
{
    let Some(exception) = dump.exception() else {
        return Ok(None);
    };
    let platform = match dump.system() {
        Some(system) => Some(system.platform),
        None => None,
    };
    Ok(Some(crash_reason(alloc, platform, exception)?))
}

/// The address where the exception happened.
pub fn address_text(alloc: Global, exception: &Exception<'_>) -> Result<Text, NoMemory>
    ensures { IfOk result (λ text. text ≡ spec.address_text (exception_entry exception.now)) }
{
    let digits = hex::encode(alloc, exception.address.to_be_bytes())?;
    Ok(Text::from(format!(in alloc; "0x{digits}")?))
}

/// The system's version.
pub fn version_text(alloc: Global, system: &System) -> Result<Text, NoMemory>
    ensures { IfOk result (λ text. text ≡ spec.version_text system.now) }
{
    let major = system.major;
    let minor = system.minor;
    let build = system.build;
    Ok(Text::from(format!(in alloc; "{major}.{minor}.{build}")?))
}
