//! The lines of a message that say how its body is written.
ghost use Rattle.std.specs.Prelude.{◌≡◌, ◌↔◌, List, ℕ, IsTrue, IfOk, IfErr, MatchOption, codes};
ghost use Rattle.std.specs.List.{position_or_len};
ghost use Rattle.std.specs.Option.{option_copied};
ghost use Rattle.soc_forms.specs.FormLines.{AreFormLines, HasBoundary, IsPlain, is_semicolon, media_of};
ghost use Rattle.soc_multipart.specs.Params.{lower};
ghost use Rattle.soc_forms.specs.FormErrors.{LinesRefusal};

use crate::form_error::FormError;
use crate::reasons::Reason;
use soc_base::{NoMemory, Pairs};
use soc_multipart::{find_param, is_boundary, parameters};
use soc_text::{after, trim_blanks};
use std::alloc::Global;

/// The boundary that the lines of a message name: its `Content-Encoding`, if it has one, and its
/// `Content-Type` lines.
pub fn boundary_of(
    alloc: Global,
    encoding: Option<&str>,
    kinds: &Pairs,
) -> Result<Vec<u8>, FormError>
    ensures found { IfOk result (λ boundary.
        AreFormLines (option_copied encoding.entry) kinds.now boundary.items) }
    ensures refused { IfErr result
        (λ error. LinesRefusal (option_copied encoding.entry) kinds.now error) }
{
    if !is_plain(encoding) {
        return Err(FormError::Malformed(Reason::ContentEncoding));
    }
    if kinds.len() != 1 {
        return Err(FormError::Malformed(Reason::NoContentType));
    }
    let (_name, value) = kinds.at(0);
    let value = value.as_bytes();
    if !is_form(value) {
        return Err(FormError::Malformed(Reason::WrongContentType));
    }
    match boundary_in(alloc, value)? {
        Some(boundary) => Ok(boundary),
        None => Err(FormError::Malformed(Reason::NoBoundary)),
    }
}

fn is_plain(encoding: Option<&str>) -> bool
    ensures { IsTrue result ↔ IsPlain (option_copied encoding.entry) }
{
    match encoding {
        Some(value) => value.eq_ignore_ascii_case("identity"),
        None => true,
    }
}

fn is_form(value: &[u8]) -> bool
    ensures { IsTrue result ↔ (lower (media_of value.now) ≡ codes "multipart/form-data") }
{
    let media = &value[..media_len(value)];
    trim_blanks(media).eq_ignore_ascii_case(b"multipart/form-data")
}

fn boundary_in(alloc: Global, value: &[u8]) -> Result<Option<Vec<u8>>, NoMemory>
    ensures { IfOk result (λ found.
        MatchOption found ((boundary : List ℕ) → ¬ (HasBoundary value.now boundary))
        (λ boundary. HasBoundary value.now boundary.items)) }
{
    let rest = after(value, media_len(value));
    let Some(found) = parameters(alloc, true, rest)? else {
        return Ok(None);
    };
    let Some(boundary) = find_param(found.as_slice(), b"boundary") else {
        return Ok(None);
    };
    if !is_boundary(boundary) {
        return Ok(None);
    }
    let boundary = Vec::from_slice(alloc, boundary)?;
    Ok(Some(boundary))
}

fn media_len(value: &[u8]) -> usize
    ensures { result ≡ position_or_len is_semicolon value.now }
{
    value.iter().take_while(|byte| !(**byte == b';')).count()
}
