//! Submissions: what a crash reporter's message says.
ghost use Rattle.std.specs.Prelude.{◌≡◌, ◌≢◌, ◌≤◌, List, ℕ, [], IfOk, IfErr, MatchBool, MatchOption, drop, filter, length};
ghost use Rattle.std.specs.Option.{option_copied};
ghost use Rattle.soc_multipart.specs.Delimiters.{IsBoundary};
ghost use Rattle.soc_forms.specs.inner.FieldViews.{fields_text};
ghost use Rattle.soc_forms.specs.Fields.{is_extra as is_extra_text, is_plain as is_plain_text};
ghost use Rattle.soc_forms.specs.Fits.{FitsCrash};
ghost use Rattle.soc_multipart.specs.Readers.{RefusesBody};
ghost use Rattle.soc_forms.specs.Forms.{error_of};
ghost use Rattle.soc_multipart.specs.OwnedViews.{owned_texts};
ghost use Rattle.soc_forms.specs.Submissions.{BodyRefusal, IsOneSubmission, IsSentId, SaysFields, SaysRefusal, SaysSubmission, SubmissionOf, SubmissionRefusal, has_short_product};
ghost use Rattle.soc_forms.specs.SubmissionViews.{HasNextExtra, submission_text};

use crate::extras::{extra_of, with_members};
use crate::fields::{Fields, dumps_of, is_extra, is_plain, no_fields, plain_fields};
use crate::form_error::FormError;
use crate::forms::Form;
use crate::reasons::Reason;
use soc_base::{Blobs, Pairs, Text, Texts};
use soc_multipart::{OwnedPart, PartsError};
use soc_raw::CrashId;
use std::alloc::Global;

/// The most annotations, `uuid` counted.
const ANNOTATIONS_LIMIT: usize = 1024;

/// The longest name of a product, in bytes.
const PRODUCT_LIMIT: usize = 1024;

/// What a message says.
#[derive(Debug, Drop)]
pub struct Submission {
    /// The id that the reporter sent as `uuid`, where it is one.
    pub sent_id: Option<CrashId>,
    /// The annotations, without `uuid`.
    pub annotations: Texts,
    pub dumps: Blobs,
}

/// The submission that a message is, by its `Content-Encoding`, its `Content-Type` lines and its whole
/// body (RFC 7578).
pub fn read_submission(
    alloc: Global,
    encoding: Option<&str>,
    kinds: &Pairs,
    body: &[u8],
) -> Result<Submission, FormError>
    ensures found { IfOk result (λ said.
        SubmissionOf (option_copied encoding.entry) kinds.now body.now (submission_text said)) }
    ensures fits { IfOk result (λ said. length body.now ≤ 16777216
        → FitsCrash (submission_text said)) }
    ensures refused { IfErr result
        (λ error. SubmissionRefusal (option_copied encoding.entry) kinds.now body.now error) }
{
    let mut form = Form::new(alloc, encoding, kinds)?;
    form.feed(body)?;
    form.finish()
}

/// A message is one submission at most, or has one reason to be refused.
pub fn submission_is_one()
    ensures { IsOneSubmission }
{}

pub fn form_error(error: PartsError) -> FormError
    ensures refusal { (boundary body : List ℕ) → IsBoundary boundary
        → RefusesBody boundary body error → BodyRefusal boundary body result }
    ensures name { result ≡ error_of error }
{
    match error {
        PartsError::BadBoundary => FormError::Malformed(Reason::NoBoundary),
        PartsError::NoFirst => FormError::Malformed(Reason::NoFirst),
        PartsError::BadPartHead { .. } => FormError::Malformed(Reason::BadPartHead),
        PartsError::NoClose => FormError::Malformed(Reason::NoClose),
        PartsError::TooManyParts => FormError::Malformed(Reason::TooManyParts),
        PartsError::NoMemory => FormError::NoMemory,
    }
}

/// What the parts of a form say.
pub fn said_by(alloc: Global, parts: Vec<OwnedPart>) -> Result<Submission, FormError>
    ensures found { IfOk result (λ said.
        SaysSubmission (owned_texts parts.items) (submission_text said)) }
    ensures refused { IfErr result (λ error. SaysRefusal (owned_texts parts.items) error) }
{
    let fields = fields_of(alloc, parts.as_slice())?;
    let count = fields.annotations.len();
    let most = if fields.sent.is_some() {
        ANNOTATIONS_LIMIT - 1
    } else {
        ANNOTATIONS_LIMIT
    };
    if count > most {
        return Err(FormError::Malformed(Reason::TooManyAnnotations));
    }
    if fields.annotations.is_empty() {
        return Err(FormError::Malformed(Reason::NoAnnotations));
    }
    if !has_short_product(&fields.annotations) {
        return Err(FormError::Malformed(Reason::LongProduct));
    }
    let dumps = dumps_of(alloc, parts)?;
    let Fields { sent, annotations } = fields;
    Ok(Submission {
        sent_id: sent_id(sent),
        annotations,
        dumps,
    })
}

fn has_short_product(annotations: &Texts) -> bool
    ensures { result ≡ has_short_product annotations.now }
{
    match annotations.get("ProductName") {
        Some(product) => product.len() <= PRODUCT_LIMIT,
        None => true,
    }
}

fn sent_id(sent: Option<Text>) -> Option<CrashId>
    ensures { IsSentId sent result }
{
    match sent {
        Some(text) => CrashId::parse(text.as_str()),
        None => None,
    }
}

/// The fields that the parts say.
fn fields_of(alloc: Global, parts: &[OwnedPart]) -> Result<Fields, FormError>
    ensures found { IfOk result (λ fields.
        SaysFields (owned_texts parts.now) (fields_text fields)) }
    ensures refused { IfErr result (λ error. SaysRefusal (owned_texts parts.now) error) }
{
    let Some(place) = next_extra(parts, 0) else {
        return Ok(plain_fields(alloc, parts)?);
    };
    if next_extra(parts, place + 1).is_some() {
        return Err(FormError::Malformed(Reason::BadExtra));
    }
    let part = &parts[place];
    let Some(extra) = extra_of(alloc, part)? else {
        return Err(FormError::Malformed(Reason::BadExtra));
    };
    if has_plain(parts) {
        return Err(FormError::Malformed(Reason::ExtraAndPlain));
    }
    let Some(members) = extra.as_object() else {
        return Err(FormError::Malformed(Reason::BadExtra));
    };
    // Each member is an annotation of its own: too many are refused before they are copied.
    if members.len() > ANNOTATIONS_LIMIT {
        return Err(FormError::Malformed(Reason::TooManyAnnotations));
    }
    Ok(with_members(alloc, no_fields(alloc), members)?)
}

/// The place of the first JSON part from `from` on.
fn next_extra(parts: &[OwnedPart], from: usize) -> Option<usize>
    requires { from ≤ length parts.now }
    ensures { MatchOption result (filter is_extra_text (owned_texts (drop from parts.now)) ≡ [])
        (λ place. HasNextExtra parts.now from place) }
{
    for i in from..parts.len() {
        let part = &parts[i];
        if is_extra(part) {
            return Some(i);
        }
    }
    None
}

fn has_plain(parts: &[OwnedPart]) -> bool
    ensures { MatchBool result (filter is_plain_text (owned_texts parts.now) ≢ [])
        (filter is_plain_text (owned_texts parts.now) ≡ []) }
{
    for part in parts {
        if is_plain(part) {
            return true;
        }
    }
    false
}
