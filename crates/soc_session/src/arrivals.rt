//! Messages as they come from a link.
ghost use Rattle.std.specs.Prelude.{◌≡◌, IfOk, IfErr, IfSome};
ghost use Rattle.soc_edge.specs.Told.{ReadFailed};
ghost use Rattle.soc_session.specs.inner.Arrivals.{Arrives, IsSized};

use crate::bodies::take_in;
use crate::intake::Content;
use crate::routes::look_at_head;
use crate::rules::Rules;
use soc_edge::Source;
use soc_http::{BodyError, Buffer, Head, HeadError, Routes, read_head};
use std::alloc::Global;

/// A message that came whole.
#[derive(Drop)]
pub(crate) struct Incoming {
    pub(crate) head: Head,
    /// `None` where memory wanted for it: the body was read and dropped.
    pub(crate) content: Option<Content>,
}

/// The next message: `None` at the input's end on a message's edge. What its head asks for is looked at before a byte of
/// its body is taken.
pub(crate) fn next_message<X: Source>(
    alloc: Global,
    rules: &Rules,
    routes: &Routes,
    link: &mut X,
    buffer: &mut Buffer,
) -> Result<Option<Incoming>, HeadError>
    ensures arrives { Arrives rules.now (X.told link.old)
        (X.told link.new) buffer.old result buffer.new }
    ensures sized { IfOk result (λ found. IfSome found IsSized) }
    ensures cause { IfErr result (λ error. error ≡ HeadError.ReadFault
        → ReadFailed (X.told link.old) (X.told link.new)) }
{
    let Some(head) = read_head(alloc, link, buffer)? else {
        return Ok(None);
    };
    let intake = look_at_head(alloc, rules, routes, &head);
    match take_in(alloc, link, buffer, &head, intake) {
        Ok(content) => Ok(Some(Incoming {
            head,
            content: Some(content),
        })),
        Err(BodyError::NoMemory) => Ok(Some(Incoming {
            head,
            content: None,
        })),
        Err(BodyError::CutShort) => Err(HeadError::CutShort),
        Err(BodyError::ReadFault) => Err(HeadError::ReadFault),
    }
}
