//! Bodies as they come from a link.
ghost use Rattle.std.specs.Prelude.{◌≡◌, ◌≤◌, ◌<◌, List, ℕ, [], IfErr, IfOk, IsErrOf};
ghost use Rattle.soc_edge.specs.Told.{ReadFailed};
ghost use Rattle.soc_multipart.specs.Readers.{WasFed};
ghost use Rattle.soc_session.specs.inner.Intakes.{FeedsPiece, IsCollected, IsFormReady, IsOfBody, IsOfForm, IsSaid, IsWanting, TakesBody};

use crate::intake::{Content, Intake};
use crate::plans::Plan;
use crate::routes::asks::{self, Action};
use crate::routes::submit;
use soc_base::NoMemory;
use soc_edge::Source;
use soc_forms::{Form, FormError, Submission};
use soc_http::{BodyError, Buffer, Head, body_piece, pass_over, read_body};
use soc_schema::Caller;
use std::alloc::Global;

/// Takes in the body behind a head. After `NoMemory` it was read and dropped.
pub(crate) fn take_in<X: Source>(
    alloc: Global,
    link: &mut X,
    buffer: &mut Buffer,
    head: &Head,
    intake: Result<Intake, NoMemory>,
) -> Result<Content, BodyError>
    requires ready { IsFormReady intake }
    requires short { head.now.length ≤ 16777216 }
    ensures takes { TakesBody (IsOfBody intake) (X.told link.old)
        (X.told link.new) buffer.old head.now.length result buffer.new }
    ensures cause { IsErrOf result BodyError.ReadFault
        → ReadFailed (X.told link.old) (X.told link.new) }
{
    match intake {
        Ok(Intake::Passes(plan)) => {
            pass_over(link, buffer, head.length)?;
            Ok(Content::Decided(plan))
        }
        Ok(Intake::Feeds(form)) => {
            let said = feed(link, buffer, form, head.length)?;
            content_of(alloc, said)
        }
        Ok(Intake::Collects { action, caller }) => {
            let body = read_body(alloc, link, buffer, head)?;
            collected(alloc, action, caller, body.as_slice())
        }
        Err(NoMemory) => {
            pass_over(link, buffer, head.length)?;
            Err(BodyError::NoMemory)
        }
    }
}

/// What a form said, or why it was refused.
fn content_of(alloc: Global, said: Result<Submission, FormError>) -> Result<Content, BodyError>
    ensures of { (boundary body : List ℕ) → IsSaid boundary body said
        → IfOk result (IsOfForm boundary body) }
    ensures wanting { IfErr result IsWanting }
{
    match said {
        Ok(said) => Ok(Content::Submitted(said)),
        Err(FormError::Malformed(reason)) => match submit::refuse(alloc, reason) {
            Ok(plan) => Ok(Content::Decided(plan)),
            Err(NoMemory) => Err(BodyError::NoMemory),
        },
        Err(FormError::NoMemory) => Err(BodyError::NoMemory),
    }
}

/// What is asked for the crash that a body names.
fn collected(
    alloc: Global,
    action: Action,
    caller: Caller,
    body: &[u8],
) -> Result<Content, BodyError>
    ensures of { IfOk result (IsCollected action caller body.now) }
    ensures wanting { IfErr result IsWanting }
{
    match asks::plan(alloc, action, caller, body) {
        Ok(plan) => Ok(Content::Decided(plan)),
        Err(NoMemory) => Err(BodyError::NoMemory),
    }
}

/// Feeds a body of `length` bytes to a form. Once the form refuses, the rest is passed over.
fn feed<X: Source>(
    link: &mut X,
    buffer: &mut Buffer,
    form: Form,
    length: u64,
) -> Result<Result<Submission, FormError>, BodyError>
    requires ready { WasFed form [] }
    requires short { length ≤ 16777216 }
    ensures takes { TakesBody (IsSaid form.boundary) (X.told link.old)
        (X.told link.new) buffer.old length result buffer.new }
    ensures cause { IsErrOf result BodyError.ReadFault
        → ReadFailed (X.told link.old) (X.told link.new) }
{
    let mut form = form;
    let mut left = length;
    while left > 0 {
        if let Err(error) = feed_piece(link, buffer, &mut form, &mut left)? {
            pass_over(link, buffer, left)?;
            return Ok(Err(error));
        }
    }
    Ok(form.finish())
}

/// Feeds the next piece of a body, of which `left` bytes are still to come, to a form.
fn feed_piece<X: Source>(
    link: &mut X,
    buffer: &mut Buffer,
    form: &mut Form,
    left: &mut u64,
) -> Result<Result<(), FormError>, BodyError>
    requires { 0 < left.old }
    ensures feeds { FeedsPiece (X.told link.old)
        (X.told link.new) buffer.old form.old form.new left.old left.new result buffer.new }
    ensures keeps { form.new.boundary ≡ form.old.boundary }
    ensures cause { IsErrOf result BodyError.ReadFault
        → ReadFailed (X.told link.old) (X.told link.new) }
{
    let piece = body_piece(buffer, link, left)?;
    Ok(form.feed(piece))
}
