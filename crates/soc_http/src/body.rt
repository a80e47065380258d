//! Reading bodies from a source.
ghost use Rattle.std.specs.Prelude.{◌≡◌, ◌≤◌, ◌<◌, ◌+◌, length, take, vec_len, IfOk, IsErrOf, OnErr};
ghost use Rattle.soc_edge.specs.Told.{OnlyReads, ReadFailed};
ghost use Rattle.soc_http.specs.Reading.{ahead};
ghost use Rattle.std.specs.Borrow.{sem};
ghost use Rattle.std.specs.Io.BufRead.{Rests};
ghost use Rattle.soc_http.specs.Body.{BodyFrom, Passes, ReadsBodyAhead, PieceFrom};
ghost use Rattle.soc_http.specs.inner.Bodies.{IsPieceReady, IntoFrom};
ghost use Rattle.soc_http.specs.contracts.buffer.Buffer.{the_row};

use crate::buffer::{Buffer, read_behind};
use crate::head::Head;
use soc_base::Bytes;
use soc_edge::{Failed, Source};
use soc_text::before;
use std::alloc::{AllocError, Global};
use thiserror::Error;

/// Why a body wasn't read.
#[derive(Clone, Copy, Debug, PartialEq, Eq, Error)]
pub enum BodyError {
    /// The input ends within it.
    #[error("cut short")]
    CutShort,
    /// The source failed.
    #[error("read fault")]
    ReadFault,
    #[error("no memory")]
    NoMemory,
}

impl From<Failed> for BodyError {
    ghost use Rattle.std.specs.Prelude.{◌≡◌};
    ghost use Rattle.soc_http.specs.declared.body.BodyError.TheVariants.{ReadFault as read_fault};

    ghost from_gives = { λ _ error. error ≡ read_fault };

    fn from(_error: Failed) -> BodyError {
        BodyError::ReadFault
    }
}

/// How many bytes of a body stand in the window, which reads more where there is none.
pub(crate) fn piece_len<S: Source>(
    source: &mut S,
    buffer: &mut Buffer,
    left: u64,
) -> Result<usize, BodyError>
    requires { 0 < left }
    ensures ready { IsPieceReady (S.told source.old)
        (S.told source.new) buffer.old left result buffer.new }
    ensures cause { IsErrOf result BodyError.ReadFault
        → ReadFailed (S.told source.old) (S.told source.new) }
{
    if buffer.unread().is_empty() && buffer.fill(source)? == 0 {
        return Err(BodyError::CutShort);
    }
    let unread = buffer.unread().len();
    Ok(if left < unread as u64 {
        left as usize
    } else {
        unread
    })
}

/// Passes over the next `length` bytes of a body, and takes no memory. `ReadFault` comes only where the source failed, and
/// `NoMemory` never.
pub fn pass_over<S: Source>(
    source: &mut S,
    buffer: &mut Buffer,
    length: u64,
) -> Result<(), BodyError>
    ensures passes { Passes (S.told source.old)
        (S.told source.new) buffer.old length result buffer.new }
    ensures cause { IsErrOf result BodyError.ReadFault
        → ReadFailed (S.told source.old) (S.told source.new) }
{
    let mut left = length;
    while left > 0 {
        let count = piece_len(source, buffer, left)?;
        buffer.consume(count);
        left -= count as u64;
    }
    Ok(())
}

/// Copies bytes to the front of a body.
fn copy_to_front(body: &mut [u8], bytes: &[u8])
    requires { length bytes.now ≤ length body.old }
    ensures { take (length bytes.now) body.new ≡ bytes.now }
{
    body[..bytes.len()].copy_from_slice(bytes);
}

/// Reads a body into its place: what stands in the window, and the rest straight from the source.
fn read_into<S: Source>(
    source: &mut S,
    buffer: &mut Buffer,
    body: &mut [u8],
) -> Result<(), BodyError>
    ensures into { IntoFrom (S.told source.old)
        (S.told source.new) buffer.old body.new result buffer.new }
    ensures cause { IsErrOf result BodyError.ReadFault
        → ReadFailed (S.told source.old) (S.told source.new) }
{
    let mut at = buffer.unread().len().min(body.len());
    copy_to_front(body, before(buffer.unread(), at));
    buffer.consume(at);
    while at < body.len() {
        let count = read_behind(source, body, at)?;
        if count == 0 {
            return Err(BodyError::CutShort);
        }
        at += count;
    }
    Ok(())
}

fn zeros(alloc: Global, length: usize) -> Result<Vec<u8>, AllocError>
    ensures { IfOk result (λ bytes. vec_len bytes ≡ length) }
{
    vec![in alloc; 0; length]
}

/// Reads a body, as the bytes that came so far give it.
fn next_body<S: Source>(
    alloc: Global,
    source: &mut S,
    buffer: &mut Buffer,
    length: u64,
) -> Result<Bytes, BodyError>
    ensures from { BodyFrom (S.told source.old)
        (S.told source.new) buffer.old length result buffer.new }
    ensures cause { IsErrOf result BodyError.ReadFault
        → ReadFailed (S.told source.old) (S.told source.new) }
{
    let Ok(mut body) = zeros(alloc, length as usize) else {
        pass_over(source, buffer, length)?;
        return Err(BodyError::NoMemory);
    };
    read_into(source, buffer, body.as_mut_slice())?;
    Ok(Bytes::from(body))
}

/// Reads the body behind a head. After `NoMemory` it was read and dropped, so that the window and the source go on with
/// the next message; a fault or the input's end met on that way is the answer instead. `ReadFault` comes only where the
/// source failed.
pub fn read_body<S: Source>(
    alloc: Global,
    source: &mut S,
    buffer: &mut Buffer,
    head: &Head,
) -> Result<Bytes, BodyError>
    ensures reads { ReadsBodyAhead (ahead buffer.old (S.told source.old)) head.now.length result
        (ahead buffer.new (S.told source.new)) }
    ensures from { BodyFrom (S.told source.old)
        (S.told source.new) buffer.old head.now.length result buffer.new }
    ensures cause { IsErrOf result BodyError.ReadFault
        → ReadFailed (S.told source.old) (S.told source.new) }
{
    next_body(alloc, source, buffer, head.length)
}

/// The next bytes of a body of which `left` are still to come: at least one, and at most `left`, which is lowered by
/// their number. They are lent by the window, and no memory is taken. After a refusal `left` stays as it was;
/// `ReadFault` comes only where the source failed, and `NoMemory` never.
pub fn body_piece<'b, S: Source>(
    buffer: &'b mut Buffer,
    source: &mut S,
    left: &mut u64,
) -> Result<&'b [u8], BodyError>
    requires { 0 < left.old }
    ensures* after_borrow { sem 𝓛 (Rests the_row buffer.entry
        (λ new. PieceFrom (S.told source.old) (S.told source.new) buffer.old result new)) }
    ensures only { OnlyReads (S.told source.old) (S.told source.new) }
    ensures some { IfOk result (λ piece. 0 < length piece.now) }
    ensures counted { IfOk result (λ piece. left.new + length piece.now ≡ left.old) }
    ensures left_stays { OnErr result (left.new ≡ left.old) }
    ensures cause { IsErrOf result BodyError.ReadFault
        → ReadFailed (S.told source.old) (S.told source.new) }
{
    buffer.take_piece(source, left)
}
