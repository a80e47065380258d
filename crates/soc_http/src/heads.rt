//! Reading heads from a source.
ghost use Rattle.std.specs.Prelude.{◌≡◌, ◌≤◌, IfOk, IsErrOf, IfSome};
ghost use Rattle.soc_edge.specs.Told.{ReadFailed};
ghost use Rattle.soc_http.specs.Request.{IsWithinLimits};
ghost use Rattle.soc_http.specs.Reading.{ReadsHeadFrom, ReadsHeadAhead, ahead};
ghost use Rattle.soc_http.specs.inner.Windows.{Fills, IsSearched};

use crate::block::read_block;
use crate::buffer::Buffer;
use crate::head::{Head, HeadError};
use crate::search::block_end;
use soc_edge::Source;
use soc_text::before;
use std::alloc::Global;

/// How many bytes a head block may have.
const BLOCK_LIMIT: usize = 16_384;

/// Reads until a block stands in the window, and answers where it ends.
fn find_block<S: Source>(source: &mut S, buffer: &mut Buffer) -> Result<Option<usize>, HeadError>
    ensures fills { Fills (S.told source.old) (S.told source.new) buffer.old buffer.new }
    ensures found { IsSearched buffer.new (S.told source.new) result }
    ensures cause { IsErrOf result HeadError.ReadFault
        → ReadFailed (S.told source.old) (S.told source.new) }
{
    let mut searched = 0;
    loop {
        let unread = buffer.unread();
        if let Some(end) = block_end(unread, searched) {
            if end > BLOCK_LIMIT {
                return Err(HeadError::HeadTooLarge);
            }
            return Ok(Some(end));
        }
        searched = unread.len();
        if searched > BLOCK_LIMIT {
            return Err(HeadError::HeadTooLarge);
        }
        let Ok(count) = buffer.fill(source) else {
            return Err(HeadError::ReadFault);
        };
        if count == 0 {
            return if searched == 0 {
                Ok(None)
            } else {
                Err(HeadError::CutShort)
            };
        }
    }
}

/// Reads the next head, as the bytes that came so far give it.
fn next_head<S: Source>(
    alloc: Global,
    source: &mut S,
    buffer: &mut Buffer,
) -> Result<Option<Head>, HeadError>
    ensures from { ReadsHeadFrom (S.told source.old)
        (S.told source.new) buffer.old result buffer.new }
    ensures cause { IsErrOf result HeadError.ReadFault
        → ReadFailed (S.told source.old) (S.told source.new) }
{
    let Some(end) = find_block(source, buffer)? else {
        return Ok(None);
    };
    let head = read_block(alloc, before(buffer.unread(), end))?;
    buffer.consume(end);
    Ok(Some(head))
}

/// Reads the head of the next message (RFC 9112, sections 2 to 6). `None` comes exactly at the input's end on a
/// message's edge. Behind a head the window and the source go on with the body. A refusal passes over nothing.
///
/// The refusals come in this order: `CutShort` where the input ends within the first 16,384 bytes and within the head;
/// `HeadTooLarge`; `BadHead`; `NoLength`; `BodyTooLarge`. `ReadFault` comes only where the source failed.
pub fn read_head<S: Source>(
    alloc: Global,
    source: &mut S,
    buffer: &mut Buffer,
) -> Result<Option<Head>, HeadError>
    ensures reads { ReadsHeadAhead (ahead buffer.old (S.told source.old)) result
        (ahead buffer.new (S.told source.new)) }
    ensures from { ReadsHeadFrom (S.told source.old)
        (S.told source.new) buffer.old result buffer.new }
    ensures within { IfOk result (λ found. IfSome found IsWithinLimits) }
    ensures cause { IsErrOf result HeadError.ReadFault
        → ReadFailed (S.told source.old) (S.told source.new) }
{
    next_head(alloc, source, buffer)
}
