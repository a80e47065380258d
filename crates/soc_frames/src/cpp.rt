//! The text of a C++ function.
ghost use Rattle.std.specs.Prelude.{◌≡◌, ◌≤◌, length, take, drop, IfOk};
ghost use Rattle.std.specs.Str.{IsUtf8, IsCharBoundary};
ghost use Rattle.soc_frames.specs.Cpp.{end_length, trimmed, behind_spaces, without_return_type, cpp_text};

use crate::groups::collapse;
use crate::spaces::put_spaces_right;
use crate::walk::Walk;
use soc_base::{NoMemory, Text};
use std::alloc::Global;

const CONST: &[u8] = b" const";

const CONVERSION: &str = "::operator";

/// How long what the name ends with is: ` const`, a space or `&`.
fn end_len(name: &[u8]) -> usize
    ensures value { result ≡ end_length name.now }
    ensures bound { result ≤ length name.now }
{
    if name.ends_with(CONST) {
        CONST.len()
    } else if name.ends_with(b" ") || name.ends_with(b"&") {
        1
    } else {
        0
    }
}

/// Where the name ends, without what follows its parameters.
fn name_end(name: &[u8]) -> usize
    ensures value { take result name.now ≡ trimmed name.now }
    ensures boundary { IsCharBoundary name.now result }
{
    let mut end = name.len();
    loop {
        let len = end_len(&name[..end]);
        if len == 0 {
            return end;
        }
        end -= len;
    }
}

/// The name without what follows its parameters: spaces, ` const`, `&&` and `&`.
fn trim_ends(name: &str) -> &str
    ensures { result.now ≡ trimmed name.now }
{
    &name[..name_end(name.as_bytes())]
}

/// Where the name begins, behind the last space outside of brackets.
fn name_start(name: &[u8]) -> usize
    ensures value { drop result name.now ≡ behind_spaces name.now }
    ensures boundary { IsUtf8 name.now → IsCharBoundary name.now result }
{
    let mut walk = Walk::over(name);
    let mut start = 0;
    'places: while let Some(place) = walk.next_outer() {
        if place.is_space() {
            start = walk.place;
        }
    }
    start
}

/// A name without the type that the function returns, which is all up to the last space outside of brackets. A name
/// with `::operator` in it stays whole: a conversion operator's own name has spaces. It takes no memory.
pub fn drop_return_type(s: &str) -> &str
    ensures { result.now ≡ without_return_type s.now }
{
    if s.contains(CONVERSION) {
        return s;
    }
    &s[name_start(s.as_bytes())..]
}

/// The text of a C++ function: its name, as it was where nothing is left of it.
pub fn cpp_text(alloc: Global, function: &str) -> Result<Text, NoMemory>
    ensures { IfOk result (λ text. text ≡ cpp_text function.now) }
{
    let collapsed = collapse(alloc, drop_return_type(trim_ends(function)))?;
    let text = put_spaces_right(alloc, collapsed.as_str())?;
    if text.as_str().is_empty() {
        return Text::of(alloc, function);
    }
    Ok(text)
}
