//! A symbol text that is read, and a million offsets that are looked up in it.
use crate::fault::Fault;
use crate::harness::{Work, time};
use crate::numbers::number_up_to;
use crate::symbol_text::{FIRST_ADDRESS, FUNCTIONS_A_MEGABYTE, STRIDE, symbol_text};
use soc_symfile::SymFile;
use std::alloc::{AllocError, Global};
use std::time::CpuClock;

/// The most megabytes of text.
const MOST_MEGABYTES: u64 = 1024;

/// How many offsets are looked up.
const LOOK_UPS: usize = 1_000_000;

/// A symbol text that is read.
#[derive(Drop)]
struct Reads<'a>(&'a [u8]);

impl Work for Reads<'_> {
    fn once(&mut self, alloc: Global) -> Result<u64, Fault> {
        let _ = SymFile::read(alloc, self.0)?;
        Ok(self.0.len() as u64)
    }
}

/// Offsets that are looked up. It counts those that have a function.
#[derive(Drop)]
struct LookUps<'a, 'f> {
    file: &'a SymFile<'f>,
    offsets: &'a [u64],
}

impl Work for LookUps<'_, '_> {
    fn once(&mut self, _alloc: Global) -> Result<u64, Fault> {
        let mut found: u64 = 0;
        for offset in self.offsets {
            if self.file.find(*offset).function.is_some() {
                found = found.saturating_add(1);
            }
        }
        Ok(found)
    }
}

/// Reads a text of so many megabytes, and looks up a million offsets.
pub fn run<R: CpuClock + Print + Eprint + AllocGlobal>(
    rt: &R,
    words: &[String],
) -> Result<(), Fault> {
    let [megabytes] = words else {
        return Err(Fault::Words);
    };
    let megabytes = number_up_to(megabytes, MOST_MEGABYTES)?.max(1);
    let functions = megabytes * FUNCTIONS_A_MEGABYTE;
    let text = symbol_text(rt.alloc(), functions)?;
    read_text(rt, text.as_bytes(), functions * STRIDE)
}

fn read_text<R: CpuClock + Print + Eprint + AllocGlobal>(
    rt: &R,
    text: &[u8],
    range: u64,
) -> Result<(), Fault> {
    time(rt, "symbols read", "bytes", text.len(), &mut Reads(text))?;
    let offsets = offsets_within(rt.alloc(), range)?;
    let file = SymFile::read(rt.alloc(), text)?;
    look_up(rt, &file, offsets.as_slice())
}

fn look_up<R: CpuClock + Print + Eprint + AllocGlobal>(
    rt: &R,
    file: &SymFile<'_>,
    offsets: &[u64],
) -> Result<(), Fault> {
    let mut work = LookUps { file, offsets };
    time(rt, "look-ups", "offsets", offsets.len(), &mut work)
}

/// Offsets from the first function on, by a linear congruential generator (Knuth's MMIX).
fn offsets_within(alloc: Global, range: u64) -> Result<Vec<u64>, AllocError> {
    let mut offsets = Vec::with_capacity(alloc, LOOK_UPS)?;
    let mut state: u64 = 1;
    for _ in 0..LOOK_UPS {
        state = state
            .wrapping_mul(6_364_136_223_846_793_005)
            .wrapping_add(1_442_695_040_888_963_407);
        offsets.push(FIRST_ADDRESS.saturating_add((state >> 32) % range.max(1)))?;
    }
    Ok(offsets)
}
