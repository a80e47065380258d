//! Multipart bodies with one dump: cut into parts that point into them, and fed to a reader whose parts own their contents.
ghost use Rattle.std.specs.Prelude.{IfOk};
ghost use Rattle.soc_multipart.specs.OwnedViews.{owned_texts};
ghost use Rattle.soc_multipart.specs.Parts.{Cut};

use crate::fault::Fault;
use crate::harness::{Work, time};
use crate::numbers::number_up_to;
use soc_multipart::{OwnedParts, PartsError, Reader, read_whole};
use std::alloc::{AllocError, Global};
use std::time::CpuClock;

/// The boundary of each body, of the form that `curl` gives it.
const BOUNDARY: &[u8] = b"------------------------d74496d66958873e";

/// What precedes the dump.
const FRONT: &[u8] =
    b"--------------------------d74496d66958873e\r\nContent-Disposition: form-data; name=\"upload_file_minidump\"; filename=\"a.dmp\"\r\nContent-Type: application/octet-stream\r\n\r\n";

/// What follows the dump.
const BACK: &[u8] = b"\r\n--------------------------d74496d66958873e--\r\n";

/// A line that begins as a delimiter does and is none, of 50 bytes.
const NEAR_LINE: &[u8] = b"\r\n--------------------------d74496d66958873ealmost";

const MEGABYTE: usize = 1_000_000;

/// The most megabytes of a dump.
const MOST_MEGABYTES: u64 = 4096;

/// The bytes of a piece that the service reads.
const PIECE: usize = 32_768;

/// A body that is cut.
#[derive(Drop)]
struct Cuts<'a>(&'a [u8]);

impl Work for Cuts<'_> {
    fn once(&mut self, alloc: Global) -> Result<u64, Fault> {
        Ok(read_whole(alloc, BOUNDARY, self.0)?.as_slice().len() as u64)
    }
}

/// A body that is fed in pieces of so many bytes.
#[derive(Drop)]
struct Feeds<'a>(&'a [u8], usize);

impl Work for Feeds<'_> {
    fn once(&mut self, alloc: Global) -> Result<u64, Fault> {
        Ok(fed(alloc, BOUNDARY, self.0, self.1)?.as_slice().len() as u64)
    }
}

/// The parts of a body that comes in pieces of at most so many bytes.
fn fed(alloc: Global, boundary: &[u8], body: &[u8], piece: usize) -> Result<OwnedParts, PartsError>
    ensures { IfOk result (λ parts. Cut boundary.now body.now (owned_texts parts.items)) }
{
    let mut reader = Reader::new(alloc, boundary)?;
    for piece in body.chunks(piece.max(1)) {
        reader.feed(piece)?;
    }
    reader.finish()
}

/// Reads a body whose dump has so many megabytes of every byte in no order, and one whose dump has near delimiters.
pub fn run<R: CpuClock + Print + Eprint + AllocGlobal>(
    rt: &R,
    words: &[String],
) -> Result<(), Fault> {
    let [size] = words else {
        return Err(Fault::Words);
    };
    let length = (number_up_to(size, MOST_MEGABYTES)? as usize).saturating_mul(MEGABYTE);
    let dump = plain(rt.alloc(), length)?;
    read_body(rt, "plain", dump.as_slice())?;
    let dump = near(rt.alloc(), length)?;
    read_body(rt, "near", dump.as_slice())
}

fn read_body<R: CpuClock + Print + Eprint + AllocGlobal>(
    rt: &R,
    kind: &str,
    dump: &[u8],
) -> Result<(), Fault> {
    let mut body = Vec::from_slice(rt.alloc(), FRONT)?;
    body.extend_from_slice(dump)?;
    body.extend_from_slice(BACK)?;
    time_body(rt, kind, body.as_slice())
}

fn time_body<R: CpuClock + Print + Eprint + AllocGlobal>(
    rt: &R,
    kind: &str,
    body: &[u8],
) -> Result<(), Fault> {
    println!(rt; "{kind} body of {} bytes", body.len())?;
    time(rt, "cut", "bytes", body.len(), &mut Cuts(body))?;
    time(rt, "fed", "bytes", body.len(), &mut Feeds(body, PIECE))?;
    time(
        rt,
        "fed whole",
        "bytes",
        body.len(),
        &mut Feeds(body, body.len()),
    )
}

/// Bytes of a linear congruential generator (Knuth's MMIX), the highest eight bits of each number.
fn plain(alloc: Global, length: usize) -> Result<Vec<u8>, AllocError> {
    let mut dump = Vec::with_capacity(alloc, length)?;
    let mut state: u64 = 1;
    for _ in 0..length {
        state = state
            .wrapping_mul(6_364_136_223_846_793_005)
            .wrapping_add(1_442_695_040_888_963_407);
        dump.push((state >> 56) as u8)?;
    }
    Ok(dump)
}

/// Near delimiters, one after another.
fn near(alloc: Global, length: usize) -> Result<Vec<u8>, AllocError> {
    let mut dump = Vec::with_capacity(alloc, length)?;
    for i in 0..length {
        dump.push(NEAR_LINE[i % NEAR_LINE.len()])?;
    }
    Ok(dump)
}
