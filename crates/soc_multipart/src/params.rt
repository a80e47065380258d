//! Parameters of a header's value: `; name=value`, where the value is a token or a quoted text.
ghost use Rattle.std.specs.Prelude.{◌≡◌, ◌∷◌, List, ℕ, true, false, IfOk, MatchBool, MatchOption, Some, None};
ghost use Rattle.std.specs.List.{prefix_len};
ghost use Rattle.soc_multipart.specs.Delimiters.{PartsRun};
ghost use Rattle.soc_text.specs.Blanks.{is_blank};
ghost use Rattle.soc_multipart.specs.Params.{AreParams, EndsQuoted, EndsToken, ParamText, ReadsName, ReadsParam, ReadsValue, SkipsGap, SpellsByte, value_of};
ghost use Rattle.soc_text.specs.Tokens.{is_token_byte as passes_token};
ghost use Rattle.soc_multipart.specs.inner.Views.{param_text, param_texts};

use crate::delimiters::split_blanks;
use soc_base::NoMemory;
use soc_text::{is_token_byte, strip_front, token_len};
use std::alloc::Global;
use std::collections::BTreeSet;

/// A parameter.
#[derive(Debug, Drop)]
pub struct Param<'a> {
    pub name: &'a [u8],
    /// What the value stands for: a quoted text without its quotes and backslashes.
    pub value: Vec<u8>,
}

/// A value, and what follows it.
#[derive(Debug, Drop)]
struct ReadValue<'a> {
    value: Vec<u8>,
    rest: &'a [u8],
}

/// A parameter, and what follows it.
#[derive(Debug, Drop)]
struct ReadParam<'a> {
    param: Param<'a>,
    rest: &'a [u8],
}

/// The parameters that `text` consists of, no two of one name. Where the form is spaced, blanks may
/// stand before a semicolon.
pub fn params<'a>(
    alloc: Global,
    spaced: bool,
    text: &'a [u8],
) -> Result<Option<Vec<Param<'a>>>, NoMemory>
    ensures { IfOk result (λ found.
        MatchOption found ((params : List ParamText) → ¬ (AreParams spaced text.now params))
        (λ params. AreParams spaced text.now (param_texts params.items))) }
{
    let mut found = Vec::new(alloc);
    // The names so far, in lower case.
    let mut seen = BTreeSet::new(alloc);
    let mut rest = text;
    while !rest.is_empty() {
        let Some(read) = read_param(alloc, spaced, rest)? else {
            return Ok(None);
        };
        let ReadParam { param, rest: later } = read;
        let name = param.name.to_ascii_lowercase(alloc)?;
        let is_new = seen.insert(name)?;
        if !is_new {
            return Ok(None);
        }
        found.push(param)?;
        rest = later;
    }
    Ok(Some(found))
}

fn read_param<'a>(
    alloc: Global,
    spaced: bool,
    text: &'a [u8],
) -> Result<Option<ReadParam<'a>>, NoMemory>
    ensures { IfOk result (λ found.
        MatchOption found ((param : ParamText) (rest : List ℕ)
        → ¬ (ReadsParam spaced text.now param rest))
        (λ read. ReadsParam spaced text.now (param_text read.param) read.rest.now)) }
{
    let Some((name, later)) = read_name(spaced, text) else {
        return Ok(None);
    };
    let Some(read) = read_value(alloc, later)? else {
        return Ok(None);
    };
    let ReadValue { value, rest } = read;
    Ok(Some(ReadParam {
        param: Param { name, value },
        rest,
    }))
}

fn read_name(spaced: bool, text: &[u8]) -> Option<(&[u8], &[u8])>
    ensures { MatchOption result ((name rest : List ℕ) → ¬ (ReadsName spaced text.now name rest))
        (λ read. ReadsName spaced text.now read.0.now read.1.now) }
{
    let tail = strip_front(skip_gap(spaced, text), b";")?;
    let (_pad, tail) = split_blanks(tail);
    let (name, tail) = split_token(tail);
    if name.is_empty() {
        return None;
    }
    let rest = strip_front(tail, b"=")?;
    Some((name, rest))
}

fn skip_gap(spaced: bool, text: &[u8]) -> &[u8]
    ensures skips { SkipsGap spaced text.now result.now }
    ensures stops { spaced ≡ true → (b : ℕ) (more : List ℕ) → result.now ≡ b ∷ more
        → is_blank b ≡ false }
{
    if spaced {
        let (_gap, rest) = split_blanks(text);
        rest
    } else {
        text
    }
}

fn read_value<'a>(alloc: Global, text: &'a [u8]) -> Result<Option<ReadValue<'a>>, NoMemory>
    ensures { IfOk result (λ found.
        MatchOption found ((value rest : List ℕ) → ¬ (ReadsValue text.now value rest))
        (λ read. ReadsValue text.now read.value.items read.rest.now)) }
{
    if let Some(behind) = strip_front(text, b"\"") {
        let found = read_quoted(alloc, behind)?;
        return Ok(found);
    }
    let (token, rest) = split_token(text);
    if token.is_empty() {
        return Ok(None);
    }
    Ok(Some(ReadValue {
        value: Vec::from_slice(alloc, token)?,
        rest,
    }))
}

fn read_quoted<'a>(alloc: Global, text: &'a [u8]) -> Result<Option<ReadValue<'a>>, NoMemory>
    ensures { IfOk result (λ found.
        MatchOption found ((value rest : List ℕ) → EndsToken rest
        → ¬ (EndsQuoted text.now value rest))
        (λ read. EndsQuoted text.now read.value.items read.rest.now × EndsToken read.rest.now)) }
{
    let mut value = Vec::new(alloc);
    let mut rest = text;
    loop {
        if let Some(behind) = strip_front(rest, b"\"") {
            if begins_with_token_byte(behind) {
                return Ok(None);
            }
            return Ok(Some(ReadValue {
                value,
                rest: behind,
            }));
        }
        let Some((byte, later)) = spelled_byte(rest) else {
            return Ok(None);
        };
        value.push(byte)?;
        rest = later;
    }
}

/// The byte that the text begins with in a quoted text, and what follows it.
fn spelled_byte(text: &[u8]) -> Option<(u8, &[u8])>
    ensures { MatchOption result ((byte : ℕ) (rest : List ℕ) → ¬ (SpellsByte text.now byte rest))
        (λ read. SpellsByte text.now read.0 read.1.now) }
{
    let (first, rest) = text.split_first()?;
    match *first {
        b'"' => None,
        b'\\' => {
            let (kept, rest) = rest.split_first()?;
            Some((*kept, rest))
        }
        byte => Some((byte, rest)),
    }
}

fn begins_with_token_byte(text: &[u8]) -> bool
    ensures { MatchBool result (¬ (EndsToken text.now)) (EndsToken text.now) }
{
    match text.first() {
        Some(byte) => is_token_byte(*byte),
        None => false,
    }
}

/// The bytes of a token that `text` begins with, and the rest.
pub fn split_token(text: &[u8]) -> (&[u8], &[u8])
    ensures { PartsRun passes_token text.now result.0.now result.1.now }
{
    text.split_at(token_len(text))
}

/// The value of the first parameter of this name, without regard to ASCII case.
pub fn find_param<'p>(params: &'p [Param<'_>], name: &[u8]) -> Option<&'p [u8]>
    ensures { MatchOption result (value_of name.now (param_texts params.now) ≡ None)
        (λ value. value_of name.now (param_texts params.now) ≡ Some value.now) }
{
    for param in params {
        if param.name.eq_ignore_ascii_case(name) {
            return Some(param.value.as_slice());
        }
    }
    None
}
