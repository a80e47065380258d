//! What the lines of a head say of its part.
ghost use Rattle.std.specs.Prelude.{◌≡◌, ◌↔◌, List, ℕ, IsTrue, IfOk, MatchOption, Option, codes};
ghost use Rattle.std.specs.Option.{option_map};
ghost use Rattle.std.specs.Str.Lossy.{utf8_lossy};
ghost use Rattle.soc_multipart.specs.Heads.{IsDisposition, IsHead, IsKind, MayBeHead, values_of};
ghost use Rattle.soc_multipart.specs.Params.{value_of};
ghost use Rattle.soc_multipart.specs.inner.Views.{line_texts, param_texts};

use crate::heads::{Line, Named, values_named};
use crate::params::{Param, find_param, params};
use soc_base::{NoMemory, Text};
use soc_text::strip_front;
use std::alloc::Global;

/// What a `Content-Disposition` line says.
#[derive(Debug, Drop)]
pub struct Disposition {
    pub name: Text,
    pub file: Option<Text>,
}

/// What a head says.
#[derive(Debug, Drop)]
pub struct Head {
    pub name: Text,
    pub file: Option<Text>,
    /// The value of `Content-Type`, or nothing.
    pub kind: Text,
}

/// What a whole head of these lines says, where it is a good one.
pub fn head_of(alloc: Global, lines: &[Line<'_>]) -> Result<Option<Head>, NoMemory>
    ensures { IfOk result (λ found.
        MatchOption found ((name kind : List ℕ) (file : Option (List ℕ))
        → ¬ (IsHead (line_texts lines.now) name file kind))
        (λ head. IsHead (line_texts lines.now) head.name head.file head.kind)) }
{
    let Named::Once(value) = values_named(lines, b"content-disposition") else {
        return Ok(None);
    };
    let Some(kind) = kind_of(alloc, lines)? else {
        return Ok(None);
    };
    let Some(said) = disposed(alloc, value)? else {
        return Ok(None);
    };
    let Disposition { name, file } = said;
    Ok(Some(Head { name, file, kind }))
}

/// Whether a head that begins with these lines may still become a good one.
pub fn may_be_head(alloc: Global, lines: &[Line<'_>]) -> Result<bool, NoMemory>
    ensures { IfOk result (λ may. IsTrue may ↔ MayBeHead (line_texts lines.now)) }
{
    if let Named::Often = values_named(lines, b"content-type") {
        return Ok(false);
    }
    match values_named(lines, b"content-disposition") {
        Named::Never => Ok(true),
        Named::Once(value) => {
            let said = disposed(alloc, value)?;
            Ok(said.is_some())
        }
        Named::Often => Ok(false),
    }
}

fn kind_of(alloc: Global, lines: &[Line<'_>]) -> Result<Option<Text>, NoMemory>
    ensures { IfOk result (λ found. MatchOption found ((kind : List ℕ) → ¬ (IsKind (values_of (codes "content-type") (line_texts lines.now)) kind)) (λ kind. IsKind (values_of (codes "content-type") (line_texts lines.now)) kind)) }
{
    match values_named(lines, b"content-type") {
        Named::Never => {
            let kind = Text::of(alloc, "")?;
            Ok(Some(kind))
        }
        Named::Once(raw) => {
            let kind = lossy_text(alloc, raw)?;
            Ok(Some(kind))
        }
        Named::Often => Ok(None),
    }
}

fn disposed(alloc: Global, value: &[u8]) -> Result<Option<Disposition>, NoMemory>
    ensures { IfOk result (λ found.
        MatchOption found ((name : List ℕ) (file : Option (List ℕ))
        → ¬ (IsDisposition value.now name file))
        (λ said. IsDisposition value.now said.name said.file)) }
{
    let Some(text) = strip_front(value, b"form-data") else {
        return Ok(None);
    };
    let Some(found) = params(alloc, false, text)? else {
        return Ok(None);
    };
    let Some(raw_name) = find_param(found.as_slice(), b"name") else {
        return Ok(None);
    };
    let name = lossy_text(alloc, raw_name)?;
    let file = file_name(alloc, found.as_slice())?;
    Ok(Some(Disposition { name, file }))
}

fn file_name(alloc: Global, params: &[Param<'_>]) -> Result<Option<Text>, NoMemory>
    ensures { IfOk result (λ file. file ≡ option_map utf8_lossy (value_of (codes "filename") (param_texts params.now))) }
{
    match find_param(params, b"filename") {
        Some(raw) => {
            let name = lossy_text(alloc, raw)?;
            Ok(Some(name))
        }
        None => Ok(None),
    }
}

/// The bytes as text, with U+FFFD for what is no UTF-8.
pub fn lossy_text(alloc: Global, bytes: &[u8]) -> Result<Text, NoMemory>
    ensures { IfOk result (λ text. text ≡ utf8_lossy bytes.now) }
{
    let text = String::from_utf8_lossy(alloc, bytes)?;
    Ok(Text::from(text))
}
