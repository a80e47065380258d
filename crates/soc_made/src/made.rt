//! Crashes that the program makes by itself, each as a whole message that submits it.
ghost use Rattle.std.specs.Prelude.{◌≡◌, ◌<◌, ◌≤◌, ◌++◌, ◌%◌, ◌^◌, IfOk, OnOk, string_bytes};
ghost use Rattle.soc_edge.specs.Told.{WriteFailed};
ghost use Rattle.soc_made.specs.Made as spec;
ghost use Rattle.soc_made.specs.Makes.{Makes};

use crate::dump::made_dump;
use itoa::Buffer;
use soc_base::{Bytes, NoMemory};
use soc_edge::{Sink, write_all};
use std::alloc::Global;

/// The message up to the length of its body.
const HEAD: &[u8] =
    b"POST /submit HTTP/1.1\r\nHost: h\r\nContent-Type: multipart/form-data; boundary=made\r\nContent-Length: ";

const EMPTY_LINE: &[u8] = b"\r\n\r\n";

/// What a part begins with, up to its parameters.
const PART: &[u8] = b"--made\r\nContent-Disposition: form-data; ";

const CLOSE: &[u8] = b"--made--\r\n";

/// A message that submits the crash with this number, below 65,536, of a seed: a product, a version and a dump whose
/// one module is `made0.dll` to `made4.dll`. The crash brings its id.
pub fn made_crash(alloc: Global, seed: u64, k: u32) -> Result<Bytes, NoMemory>
    requires { k < 65536 }
    ensures { IfOk result (λ message. message ≡ spec.made_crash seed k) }
{
    let body = made_body(alloc, seed, k)?;
    let mut message = Vec::with_capacity(alloc, HEAD.len() + body.len() + 64)?;
    message.extend_from_slice(HEAD)?;
    message.extend_from_slice(Buffer::new().format(body.len()).as_bytes())?;
    message.extend_from_slice(EMPTY_LINE)?;
    message.extend_from_slice(body.as_slice())?;
    Ok(Bytes::from(message))
}

fn made_body(alloc: Global, seed: u64, k: u32) -> Result<Vec<u8>, NoMemory>
    requires { k < 65536 }
    ensures { IfOk result (λ body. body.items ≡ spec.made_body seed k) }
{
    let id = made_id(alloc, seed, k)?;
    let dump = made_dump(alloc, made_digit(seed, k))?;
    let mut body = Vec::new(alloc);
    put_part(&mut body, "name=\"uuid\"", id.as_bytes())?;
    put_part(&mut body, "name=\"ProductName\"", b"Made")?;
    put_part(&mut body, "name=\"Version\"", b"1")?;
    put_part(
        &mut body,
        "name=\"upload_file_minidump\"; filename=\"d\"",
        dump.as_slice(),
    )?;
    body.extend_from_slice(CLOSE)?;
    Ok(body)
}

fn put_part(body: &mut Vec<u8>, parameters: &str, content: &[u8]) -> Result<(), NoMemory>
    ensures { OnOk result (body.new.items ≡ body.old.items
        ++ spec.part parameters.now content.now) }
{
    body.extend_from_slice(PART)?;
    body.extend_from_slice(parameters.as_bytes())?;
    body.extend_from_slice(EMPTY_LINE)?;
    body.extend_from_slice(content)?;
    body.extend_from_slice(b"\r\n")?;
    Ok(())
}

/// The id of a made crash.
fn made_id(alloc: Global, seed: u64, k: u32) -> Result<String, NoMemory>
    requires { k < 65536 }
    ensures { IfOk result (λ id. string_bytes id ≡ spec.made_id seed k) }
{
    let seed = hex::encode(alloc, low_bits(seed).to_be_bytes())?;
    let number = hex::encode(alloc, (k as u16).to_be_bytes())?;
    Ok(format!(in alloc; "{seed}-0000-4000-8000-0{number}0160918")?)
}

fn low_bits(seed: u64) -> u32
    ensures { result ≡ seed % 2 ^ 32 }
{
    (seed % (1 << 32)) as u32
}

/// The digit in the name of the module.
fn made_digit(seed: u64, k: u32) -> u8
    ensures value { result ≡ spec.made_digit seed k }
    ensures small { result < 5 }
{
    ((seed % 5 + u64::from(k % 5)) % 5) as u8
}

/// How the writing of made crashes ended.
#[derive(Clone, Copy, Debug, PartialEq, Eq)]
pub enum MakeEnd {
    /// All of them were written.
    Done,
    /// The output failed.
    WriteFault,
    /// An allocation was refused.
    NoMemory,
}

/// Writes the first crashes of a seed, one behind the other, up to 65,536 of them, with one in memory at a time.
pub fn make<K: Sink>(alloc: Global, seed: u64, count: u32, output: &mut K) -> MakeEnd
    requires { count ≤ 65536 }
    ensures makes { Makes seed count (K.told output.old) (K.told output.new) result }
    ensures cause { result ≡ MakeEnd.WriteFault
        → WriteFailed (K.told output.old) (K.told output.new) }
{
    for k in 0..count {
        let Ok(message) = made_crash(alloc, seed, k) else {
            return MakeEnd::NoMemory;
        };
        let Ok(()) = write_all(output, message.as_slice()) else {
            return MakeEnd::WriteFault;
        };
    }
    MakeEnd::Done
}
