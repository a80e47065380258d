//! Minidumps made of numbers, and what is asked of them.
use soc_dump::{
    Dump, Exception, FirstCovering, Interval, Module, Thread, amd64_registers, architecture_name,
    crash_reason, debug_file, debug_id, platform_name, short_debug_file, x86_registers,
};
use soc_tables::{Fault, Row, copy, number_at, number_of, shown, word};
use std::alloc::Global;

/// Puts numbers of four bytes at their places.
fn put_numbers(file: &mut [u8], numbers: &str) -> Result<(), Fault> {
    for item in numbers.split(';') {
        if let Some((place, value)) = item.trim().split_once('=') {
            put_number(file, number_of(place)?, number_of(value)?)?;
        }
    }
    Ok(())
}

fn put_number(file: &mut [u8], place: u64, value: u64) -> Result<(), Fault> {
    let bytes = u32::try_from(value)?.to_le_bytes();
    for (offset, byte) in bytes.iter().enumerate() {
        if let Some(slot) = file.get_mut((place as usize).saturating_add(offset)) {
            *slot = *byte;
        }
    }
    Ok(())
}

/// A file of zeros but for a row's numbers.
fn bytes_of(alloc: Global, row: &Row<'_>) -> Result<Vec<u8>, Fault> {
    let mut file = vec![in alloc; 0u8; row.number("size")? as usize]?;
    put_numbers(file.as_mut_slice(), row.cell("numbers")?)?;
    Ok(file)
}

/// A dump whose directory of so many streams is at 32, with a row's numbers.
fn file_of(alloc: Global, row: &Row<'_>) -> Result<Vec<u8>, Fault> {
    let mut file = vec![in alloc; 0u8; row.number("size")? as usize]?;
    put_numbers(file.as_mut_slice(), "0=0x504D444D; 4=0xA793; 12=32")?;
    put_number(file.as_mut_slice(), 8, row.number("streams")?)?;
    put_numbers(file.as_mut_slice(), row.cell("numbers")?)?;
    Ok(file)
}

/// Whether a dump is read.
pub fn dump(alloc: Global, row: &Row<'_>) -> Result<String, Fault> {
    let file = file_of(alloc, row)?;
    let _ = Dump::read(alloc, file.as_slice())?;
    copy(alloc, "read")
}

/// What a dump gives that is asked.
pub fn asked(alloc: Global, row: &Row<'_>) -> Result<String, Fault> {
    let file = file_of(alloc, row)?;
    asked_of(alloc, file.as_slice(), row.cell("asked")?)
}

fn asked_of(alloc: Global, file: &[u8], asked: &str) -> Result<String, Fault> {
    let dump = Dump::read(alloc, file)?;
    match word(asked, 0) {
        "module" => module_text(alloc, dump.modules().first()),
        "thread" => thread_text(alloc, dump.threads().first()),
        "system" => system_text(alloc, &dump),
        "exception" => exception_text(alloc, &dump),
        _ => found_text(alloc, &dump, asked),
    }
}

fn found_text(alloc: Global, dump: &Dump<'_>, asked: &str) -> Result<String, Fault> {
    match word(asked, 0) {
        "module_at" => module_place(alloc, dump, number_at(asked, 1)?),
        "word_at" => word_text(alloc, dump, number_at(asked, 1)?, number_at(asked, 2)?),
        _ => Err(Fault::new("no such thing is asked")),
    }
}

fn module_text(alloc: Global, module: Option<&Module<'_>>) -> Result<String, Fault> {
    let Some(module) = module else {
        return copy(alloc, "none");
    };
    let name = module.name(alloc)?;
    Ok(format!(in alloc; "{:#x} {}", module.base, name.as_str())?)
}

/// The thread's number, and its instruction pointer, which a context that is one byte too short doesn't have.
fn thread_text(alloc: Global, thread: Option<&Thread<'_>>) -> Result<String, Fault> {
    let Some(thread) = thread else {
        return copy(alloc, "none");
    };
    let short = thread.context.get(..1_231).unwrap_or(&[]);
    match (amd64_registers(thread.context), amd64_registers(short)) {
        (Some(registers), None) => Ok(format!(in alloc; "{} at {:#x}", thread.id, registers[16])?),
        _ => copy(alloc, "no registers, or those of a short context"),
    }
}

fn system_text(alloc: Global, dump: &Dump<'_>) -> Result<String, Fault> {
    let Some(system) = dump.system() else {
        return copy(alloc, "none");
    };
    let architecture = architecture_name(system.arch);
    Ok(format!(in alloc; "{architecture} {}", platform_name(system.platform))?)
}

/// The thread of the exception, and its reason on its platform and on none.
fn exception_text(alloc: Global, dump: &Dump<'_>) -> Result<String, Fault> {
    let platform = dump.system().map(|system| system.platform);
    match dump.exception() {
        Some(exception) => reasons(alloc, platform, exception),
        None => copy(alloc, "none"),
    }
}

fn reasons(
    alloc: Global,
    platform: Option<u32>,
    exception: &Exception<'_>,
) -> Result<String, Fault> {
    let reason = crash_reason(alloc, platform, exception)?;
    let bare = crash_reason(alloc, None, exception)?;
    let thread = exception.thread;
    Ok(format!(in alloc; "{thread} {} {}", reason.as_str(), bare.as_str())?)
}

fn module_place(alloc: Global, dump: &Dump<'_>, address: u64) -> Result<String, Fault> {
    let table = dump.module_table(alloc)?;
    Ok(format!(in alloc; "{:?}", table.at(address))?)
}

/// The word at an address, where the table of words gives the same.
fn word_text(alloc: Global, dump: &Dump<'_>, address: u64, width: u64) -> Result<String, Fault> {
    if width < 1 || 8 < width {
        return copy(alloc, "no width");
    }
    let word = dump.word_at(address, width as u8);
    let by_table = dump.words(alloc, width as u8)?.at(address);
    words_text(alloc, word, by_table)
}

fn words_text(alloc: Global, word: Option<u64>, by_table: Option<u64>) -> Result<String, Fault> {
    match (word, by_table) {
        (Some(word), Some(other)) => match word == other {
            true => Ok(format!(in alloc; "{word:#x}")?),
            false => Ok(format!(in alloc; "{word:#x}, by the table {other:#x}")?),
        },
        (None, None) => copy(alloc, "none"),
        _ => copy(alloc, "one of word and table has none"),
    }
}

/// The first of a row's intervals that holds a number.
pub fn first(alloc: Global, row: &Row<'_>) -> Result<String, Fault> {
    let intervals = intervals_of(alloc, row.cell("intervals")?)?;
    first_text(alloc, intervals.as_slice(), row.number("number")?)
}

fn first_text(alloc: Global, intervals: &[Interval], number: u64) -> Result<String, Fault> {
    let table = FirstCovering::new(alloc, intervals)?;
    Ok(format!(in alloc; "{:?}", table.at(number))?)
}

fn intervals_of(alloc: Global, cell: &str) -> Result<Vec<Interval>, Fault> {
    let mut intervals = Vec::new(alloc);
    for item in cell.split(';') {
        if let Some((first, last)) = item.trim().split_once("..") {
            intervals.push(interval_between(first, last)?)?;
        }
    }
    Ok(intervals)
}

fn interval_between(first: &str, last: &str) -> Result<Interval, Fault> {
    Ok(Interval {
        first: number_of(first)?,
        last: number_of(last)?,
    })
}

/// The interval of so many numbers.
pub fn interval(alloc: Global, row: &Row<'_>) -> Result<String, Fault> {
    let interval = Interval::from_count(row.number("first")?, row.number("count")?);
    Ok(format!(in alloc; "{:#x}..{:#x}", interval.first, interval.last)?)
}

/// The registers of a context on x86.
pub fn x86(alloc: Global, row: &Row<'_>) -> Result<String, Fault> {
    let context = bytes_of(alloc, row)?;
    Ok(format!(in alloc; "{:?}", x86_registers(context.as_slice()))?)
}

/// The debug id and the debug file of a module with a row's path and code view record.
pub fn debug(alloc: Global, row: &Row<'_>) -> Result<String, Fault> {
    let path = row.bytes(alloc, "path")?;
    let code_view = row.bytes(alloc, "code_view")?;
    let module = Module {
        base: 0,
        size: 0,
        path: path.as_slice(),
        code_view: code_view.as_slice(),
    };
    debug_text(alloc, &module, row.number("most")?)
}

fn debug_text(alloc: Global, module: &Module<'_>, most: u64) -> Result<String, Fault> {
    let id = debug_id(alloc, module)?;
    match short_debug_file(alloc, module, most as usize)? {
        Some(file) => Ok(format!(in alloc; "{:?} {:?}", id.as_str(), file.as_str())?),
        None => Ok(format!(in alloc; "{:?} longer", id.as_str())?),
    }
}

/// The name and the debug file of the one module of a dump with a row's path and code view record.
pub fn named(alloc: Global, row: &Row<'_>) -> Result<String, Fault> {
    let path = row.bytes(alloc, "path")?;
    let code_view = row.bytes(alloc, "code_view")?;
    let mut file = vec![in alloc; 0u8; 164]?;
    let bytes = file.as_mut_slice();
    put_numbers(bytes, "0=0x504D444D; 4=0xA793; 8=1; 12=32")?;
    put_numbers(bytes, "32=4; 36=112; 40=44; 44=1; 68=160")?;
    put_number(bytes, 124, code_view.len() as u64)?;
    put_number(bytes, 128, 164 + path.len() as u64)?;
    put_number(bytes, 160, path.len() as u64)?;
    file.extend_from_slice(path.as_slice())?;
    file.extend_from_slice(code_view.as_slice())?;
    name_of_first(alloc, &Dump::read(alloc, file.as_slice())?)
}

fn name_of_first(alloc: Global, dump: &Dump<'_>) -> Result<String, Fault> {
    let Some(module) = dump.modules().first() else {
        return copy(alloc, "none");
    };
    let name = module.name(alloc)?;
    let file = debug_file(alloc, module)?;
    Ok(format!(in alloc; "{} {}", name.as_str(), file.as_str())?)
}
