//! Dumps that a stranger could send, each of 16 MiB. A walk of the one thread has 1,024 frames, each found by the last
//! word of a scan.
ghost use Rattle.std.specs.Prelude.{◌<◌, ◌≤◌};

use std::alloc::{AllocError, Global};

/// What a dump is made of.
#[derive(Clone, Copy, Debug, PartialEq, Eq)]
pub enum Made {
    /// A million regions that overlap, in no order.
    Regions,
    /// As many modules as fit, which share a build id that has symbols, and the longest path that counts, with no
    /// separator in it.
    Names,
    /// As many modules as fit, which share the longest code view record that counts, of a debug file with symbols.
    Views,
    /// One module with the longest path that counts, each character of which takes three bytes.
    Name,
}

/// The bytes of each dump.
const SIZE: usize = 16_777_216;

// Where the directory stands, the streams that it names, and what they name.
const DIRECTORY: usize = 32;

const SYSTEM: usize = 96;

const THREADS: usize = 160;

const EXCEPTION: usize = 224;

const CONTEXT: usize = 400;

/// The context's first bytes are no registers, and zeros.
const EMPTY_PATH: usize = CONTEXT;

const STACK: usize = 2048;

const MODULES: usize = 331_008;

const BEHIND_ONE_MODULE: usize = 331_776;

const BEHIND_ALL_MODULES: usize = 16_750_592;

/// The words that a walk scans: 160 for the first frame and 40 for each other one.
const WORDS: usize = 41_080;

const FIRST_SCAN: usize = 160;

const SCAN: usize = 40;

/// Where the stack begins in the process.
const STACK_ADDRESS: u64 = 0x7FFF_0000_0000;

/// A frame pointer that leads nowhere.
const NO_ADDRESS: u64 = 0xFFFF_FFFF_FFFF_F000;

/// How many modules share a path or a code view record.
const MODULE_COUNT: u32 = 152_000;

const MODULE_SIZE: u32 = 108;

/// How many regions fit.
const REGION_COUNT: u32 = 1_027_800;

const REGION_SIZE: u32 = 16;

/// A unit whose character takes three bytes as text (U+4E00).
const WIDE_UNIT: u16 = 0x4E00;

/// The odd number by which others are spread (Knuth's, for 32 bits).
const SPREAD: u32 = 0x9E37_79B9;

/// The kind that a word names.
pub fn made_named(word: &str) -> Option<Made> {
    match word {
        "regions" => Some(Made::Regions),
        "names" => Some(Made::Names),
        "views" => Some(Made::Views),
        "name" => Some(Made::Name),
        _ => None,
    }
}

/// A dump of a kind.
pub fn made_dump(alloc: Global, made: Made) -> Result<Vec<u8>, AllocError> {
    let mut file = vec![in alloc; 0u8; SIZE]?;
    let bytes = file.as_mut_slice();
    put_head(bytes);
    put_thread(bytes);
    match made {
        Made::Regions => put_regions(bytes),
        Made::Names => put_names(bytes),
        Made::Views => put_views(bytes),
        Made::Name => put_name(bytes),
    }
    Ok(file)
}

/// Writes bytes at a place, as far as the file goes.
fn put_bytes(file: &mut [u8], place: usize, bytes: &[u8]) {
    for (offset, byte) in bytes.iter().enumerate() {
        if let Some(slot) = file.get_mut(place.saturating_add(offset)) {
            *slot = *byte;
        }
    }
}

/// Writes a number of four bytes, the lowest first.
fn put(file: &mut [u8], place: usize, number: u32) {
    put_bytes(file, place, &number.to_le_bytes());
}

/// Writes a number of eight bytes, the lowest first.
fn put_wide(file: &mut [u8], place: usize, number: u64) {
    put_bytes(file, place, &number.to_le_bytes());
}

/// Writes an entry of the directory.
fn put_stream(file: &mut [u8], index: u8, kind: u32, size: u32, place: u32) {
    let entry = DIRECTORY + usize::from(index) * 12;
    put(file, entry, kind);
    put(file, entry + 4, size);
    put(file, entry + 8, place);
}

/// The header, and the streams of system, threads and exception, of Windows on AMD64. The kinds of the other streams are
/// unused ones until their lists are written.
fn put_head(file: &mut [u8]) {
    put(file, 0, 0x504D_444D);
    put(file, 4, 0xA793);
    put(file, 8, 5);
    put(file, 12, DIRECTORY as u32);
    put_stream(file, 0, 7, 56, SYSTEM as u32);
    put(file, SYSTEM, 9);
    put(file, SYSTEM + 20, 2);
    put_stream(file, 1, 3, 52, THREADS as u32);
    put(file, THREADS, 1);
    put(file, THREADS + 4, 1);
    put_stream(file, 2, 6, 168, EXCEPTION as u32);
    put(file, EXCEPTION, 1);
    put(file, EXCEPTION + 160, 1232);
    put(file, EXCEPTION + 164, CONTEXT as u32);
}

/// The thread's stack and registers.
fn put_thread(file: &mut [u8]) {
    put_wide(file, THREADS + 28, STACK_ADDRESS);
    put(file, THREADS + 36, (WORDS * 8) as u32);
    put(file, THREADS + 40, STACK as u32);
    put(file, THREADS + 44, 1232);
    put(file, THREADS + 48, CONTEXT as u32);
    put_wide(file, CONTEXT + 152, STACK_ADDRESS);
    put_wide(file, CONTEXT + 160, NO_ADDRESS);
    put_wide(file, CONTEXT + 248, u64::from(SPREAD));
    for word in 0..WORDS {
        put_wide(file, STACK + word * 8, stack_word(word));
    }
}

/// A word of the stack: an address of the modules where a scan ends, and else one outside all of them.
fn stack_word(word: usize) -> u64
    requires { word < 41080 }
{
    let number = (word as u32).wrapping_mul(SPREAD);
    if word + 1 >= FIRST_SCAN && (word + 1 - FIRST_SCAN) % SCAN == 0 {
        u64::from(number % 0x8000_0000)
    } else {
        NO_ADDRESS - u64::from(number)
    }
}

/// A list of modules, which lie in the lowest four gigabytes. Each names the same places.
fn put_modules(file: &mut [u8], count: u32, length: u32, path: u32, view: u32, view_size: u32)
    requires { count ≤ 152000 }
{
    put_stream(file, 3, 4, 4 + count * MODULE_SIZE, MODULES as u32);
    put(file, MODULES, count);
    for index in 0..count {
        let entry = MODULES + 4 + index as usize * MODULE_SIZE as usize;
        put(file, entry, index.wrapping_mul(SPREAD));
        put(file, entry + 8, length);
        put(file, entry + 20, path);
        put(file, entry + 76, view_size);
        put(file, entry + 80, view);
    }
}

/// The units of a path that count.
const UNITS: usize = 2_048;

/// The bytes of a code view record that count.
const VIEW_SIZE: usize = 4_096;

/// A path of so many units that are all the same.
fn put_path(file: &mut [u8], place: usize, unit: u16)
    requires { place ≤ 16777212 }
{
    put(file, place, (UNITS * 2) as u32);
    for index in 0..UNITS {
        put_bytes(file, place + 4 + index * 2, &unit.to_le_bytes());
    }
}

/// Modules that share a path and a build id.
fn put_names(file: &mut [u8]) {
    let view = BEHIND_ALL_MODULES + VIEW_SIZE * 2;
    put_modules(
        file,
        MODULE_COUNT,
        0x10_0000,
        BEHIND_ALL_MODULES as u32,
        view as u32,
        20,
    );
    put_path(file, BEHIND_ALL_MODULES, WIDE_UNIT);
    put_bytes(file, view, b"LEpBxxxxxxxxxxxxxxxx");
}

/// Modules without a name that share the record of a PDB file.
fn put_views(file: &mut [u8]) {
    put_modules(
        file,
        MODULE_COUNT,
        0x10_0000,
        EMPTY_PATH as u32,
        BEHIND_ALL_MODULES as u32,
        VIEW_SIZE as u32,
    );
    if let Some(view) = file.get_mut(BEHIND_ALL_MODULES..BEHIND_ALL_MODULES + VIEW_SIZE) {
        view.fill(b'x');
    }
    put_bytes(file, BEHIND_ALL_MODULES, b"RSDS");
    put_bytes(file, BEHIND_ALL_MODULES + VIEW_SIZE - 6, b"/x.pdb");
}

/// One module with a long path.
fn put_name(file: &mut [u8]) {
    put_modules(file, 1, 0xFFFF_0000, BEHIND_ONE_MODULE as u32, 0, 0);
    put_path(file, BEHIND_ONE_MODULE, WIDE_UNIT);
}

/// Regions below the first terabyte, and one module.
fn put_regions(file: &mut [u8]) {
    put_modules(file, 1, 0xFFFF_0000, EMPTY_PATH as u32, 0, 0);
    put_stream(
        file,
        4,
        5,
        4 + REGION_COUNT * REGION_SIZE,
        BEHIND_ONE_MODULE as u32,
    );
    put(file, BEHIND_ONE_MODULE, REGION_COUNT);
    for index in 0..REGION_COUNT {
        let entry = BEHIND_ONE_MODULE + 4 + index as usize * REGION_SIZE as usize;
        put(file, entry, index.wrapping_mul(SPREAD));
        put(file, entry + 4, index % 256);
        put(file, entry + 8, index % 65_536);
    }
}
