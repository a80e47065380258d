//! The dump of a made crash: a minidump of one module and one thread, which crashed in it.
ghost use Rattle.std.specs.Prelude.{◌≡◌, ◌<◌, ◌^◌, ◌++◌, IfOk, OnOk};
ghost use Rattle.soc_made.specs.Dump as spec;

use soc_base::NoMemory;
use std::alloc::Global;

/// How many bytes the dump has.
const SIZE: usize = 1728;

// Where the parts of the dump begin.
const DIRECTORY: usize = 32;

const SYSTEM: usize = 80;

const MODULES: usize = 136;

const EXCEPTION: usize = 248;

const THREADS: usize = 416;

const MODULE_NAME: usize = 468;

const CONTEXT: usize = 496;

/// `MDMP`.
const SIGNATURE: u32 = 0x504D_444D;

const VERSION: u32 = 0xA793;

const STREAMS: u32 = 4;

/// An entry of the directory: a stream's type, its size and its place.
#[derive(Clone, Copy)]
struct Stream {
    kind: u32,
    size: u32,
    place: usize,
}

const SYSTEM_STREAM: Stream = Stream {
    kind: 7,
    size: 56,
    place: SYSTEM,
};

const MODULE_STREAM: Stream = Stream {
    kind: 4,
    size: 112,
    place: MODULES,
};

const EXCEPTION_STREAM: Stream = Stream {
    kind: 6,
    size: 168,
    place: EXCEPTION,
};

const THREAD_STREAM: Stream = Stream {
    kind: 3,
    size: 52,
    place: THREADS,
};

const AMD64: u16 = 9;

const PROCESSORS: u8 = 1;

const WINDOWS_NT: u32 = 2;

const MODULE_BASE: u64 = 0x1000_0000;

const MODULE_SIZE: u32 = 0x1000;

/// The length of the module's name in bytes.
const NAME_SIZE: u32 = 18;

const THREAD: u32 = 1;

const ACCESS_VIOLATION: u32 = 0xC000_0005;

const PARAMETERS: u32 = 2;

const CONTEXT_SIZE: u32 = 1232;

const INSTRUCTION_POINTER: u64 = 0x1000_0100;

/// The dump whose module has this digit in its name.
pub fn made_dump(alloc: Global, digit: u8) -> Result<Vec<u8>, NoMemory>
    requires { digit < 5 }
    ensures { IfOk result (λ dump. dump.items ≡ spec.dump digit) }
{
    let mut dump = Vec::with_capacity(alloc, SIZE)?;
    put_header(&mut dump)?;
    put_directory(&mut dump)?;
    put_system(&mut dump)?;
    put_module(&mut dump)?;
    put_exception(&mut dump)?;
    put_thread(&mut dump)?;
    put_name(&mut dump, digit)?;
    put_long(&mut dump, CONTEXT + 248, INSTRUCTION_POINTER)?;
    pad(&mut dump, SIZE)?;
    Ok(dump)
}

fn put_header(dump: &mut Vec<u8>) -> Result<(), NoMemory>
    ensures { OnOk result (dump.new.items ≡ spec.laid dump.old.items spec.header_fields) }
{
    put_word(dump, 0, SIGNATURE)?;
    put_word(dump, 4, VERSION)?;
    put_word(dump, 8, STREAMS)?;
    put_word(dump, 12, DIRECTORY as u32)
}

fn put_directory(dump: &mut Vec<u8>) -> Result<(), NoMemory>
    ensures { OnOk result (dump.new.items ≡ spec.laid dump.old.items spec.directory_fields) }
{
    put_entry(dump, DIRECTORY, SYSTEM_STREAM)?;
    put_entry(dump, DIRECTORY + 12, MODULE_STREAM)?;
    put_entry(dump, DIRECTORY + 24, EXCEPTION_STREAM)?;
    put_entry(dump, DIRECTORY + 36, THREAD_STREAM)
}

fn put_entry(dump: &mut Vec<u8>, at: usize, stream: Stream) -> Result<(), NoMemory>
    requires near { at < 2 ^ 16 }
    requires place { stream.place < 2 ^ 16 }
    ensures { OnOk result (dump.new.items
        ≡ spec.laid dump.old.items (spec.entry at stream.kind stream.size stream.place)) }
{
    put_word(dump, at, stream.kind)?;
    put_word(dump, at + 4, stream.size)?;
    put_word(dump, at + 8, stream.place as u32)
}

fn put_system(dump: &mut Vec<u8>) -> Result<(), NoMemory>
    ensures { OnOk result (dump.new.items ≡ spec.laid dump.old.items spec.system_fields) }
{
    put(dump, SYSTEM, &AMD64.to_le_bytes())?;
    put(dump, SYSTEM + 6, &[PROCESSORS])?;
    put_word(dump, SYSTEM + 20, WINDOWS_NT)
}

fn put_module(dump: &mut Vec<u8>) -> Result<(), NoMemory>
    ensures { OnOk result (dump.new.items ≡ spec.laid dump.old.items spec.module_fields) }
{
    put_word(dump, MODULES, 1)?;
    put_long(dump, MODULES + 4, MODULE_BASE)?;
    put_word(dump, MODULES + 12, MODULE_SIZE)?;
    put_word(dump, MODULES + 24, MODULE_NAME as u32)
}

fn put_exception(dump: &mut Vec<u8>) -> Result<(), NoMemory>
    ensures { OnOk result (dump.new.items ≡ spec.laid dump.old.items spec.exception_fields) }
{
    put_word(dump, EXCEPTION, THREAD)?;
    put_word(dump, EXCEPTION + 8, ACCESS_VIOLATION)?;
    put_word(dump, EXCEPTION + 32, PARAMETERS)?;
    put_word(dump, EXCEPTION + 160, CONTEXT_SIZE)?;
    put_word(dump, EXCEPTION + 164, CONTEXT as u32)
}

fn put_thread(dump: &mut Vec<u8>) -> Result<(), NoMemory>
    ensures { OnOk result (dump.new.items ≡ spec.laid dump.old.items spec.thread_fields) }
{
    put_word(dump, THREADS, 1)?;
    put_word(dump, THREADS + 4, THREAD)?;
    put_word(dump, THREADS + 44, CONTEXT_SIZE)?;
    put_word(dump, THREADS + 48, CONTEXT as u32)
}

/// The name of the module: its length and its text in UTF-16.
fn put_name(dump: &mut Vec<u8>, digit: u8) -> Result<(), NoMemory>
    requires { digit < 5 }
    ensures { OnOk result (dump.new.items ≡ spec.laid dump.old.items (spec.name_fields digit)) }
{
    let name = [b'm', b'a', b'd', b'e', b'0' + digit, b'.', b'd', b'l', b'l'];
    put_word(dump, MODULE_NAME, NAME_SIZE)?;
    pad(dump, MODULE_NAME + 4)?;
    put_wide(dump, &name)
}

/// ASCII text in UTF-16, behind what stands there.
fn put_wide(dump: &mut Vec<u8>, text: &[u8]) -> Result<(), NoMemory>
    ensures { OnOk result (dump.new.items ≡ dump.old.items ++ spec.wide text.now) }
{
    for code in text {
        dump.extend_from_slice(&u16::from(*code).to_le_bytes())?;
    }
    Ok(())
}

fn put_word(dump: &mut Vec<u8>, place: usize, value: u32) -> Result<(), NoMemory>
    ensures { OnOk result (dump.new.items ≡ spec.placed dump.old.items (spec.word place value)) }
{
    put(dump, place, &value.to_le_bytes())
}

fn put_long(dump: &mut Vec<u8>, place: usize, value: u64) -> Result<(), NoMemory>
    ensures { OnOk result (dump.new.items ≡ spec.placed dump.old.items (spec.long place value)) }
{
    put(dump, place, &value.to_le_bytes())
}

/// The bytes at the place.
fn put(dump: &mut Vec<u8>, place: usize, bytes: &[u8]) -> Result<(), NoMemory>
    ensures { OnOk result (dump.new.items ≡ spec.padded dump.old.items place ++ bytes.now) }
{
    pad(dump, place)?;
    dump.extend_from_slice(bytes)?;
    Ok(())
}

/// Zeros up to the place.
fn pad(dump: &mut Vec<u8>, place: usize) -> Result<(), NoMemory>
    ensures { OnOk result (dump.new.items ≡ spec.padded dump.old.items place) }
{
    dump.resize(place.max(dump.len()), 0)?;
    Ok(())
}
