//! Look-ups among the lines of a head (RFC 9110, sections 5.1 and 8.4): the case of a name's letters doesn't count.
ghost use Rattle.std.specs.Prelude.{◌≡◌, ◌<◌, ◌≤◌, ◌++◌, ◌∷◌, [], codes, find, length, slice_get, IfOk, MatchBool, OnOk};
ghost use Rattle.std.specs.Option.{option_copied};
ghost use Rattle.std.specs.Str.{str_eq_ignore_ascii_case};
ghost use Rattle.soc_http.specs.Lines.{encodes, encoding_of, is_encoded, lines_named};
ghost use Rattle.soc_http.specs.Request.{values_of};

use soc_base::{NoMemory, Pairs, Text};
use std::alloc::Global;

/// The value of the first line of this name.
pub fn first_named<'a>(lines: &'a Pairs, name: &str) -> Option<&'a str>
    ensures { option_copied result ≡ slice_get (values_of name.now lines.now) 0 }
{
    for (line_name, value) in lines {
        if is_named(line_name, name) {
            return Some(value);
        }
    }
    None
}

/// Whether several lines have this name.
pub fn is_repeated(lines: &Pairs, name: &str) -> bool
    ensures { MatchBool result (1 < length (values_of name.now lines.now))
        (length (values_of name.now lines.now) ≤ 1) }
{
    let mut found = false;
    for (line_name, _) in lines {
        if is_named(line_name, name) {
            if found {
                return true;
            }
            found = true;
        }
    }
    false
}

/// The lines of this name, in order.
pub fn lines_named(alloc: Global, lines: &Pairs, name: &str) -> Result<Pairs, NoMemory>
    ensures { IfOk result (λ named. named ≡ lines_named name.now lines.now) }
{
    let mut named = Pairs::new(alloc);
    for (line_name, value) in lines {
        if is_named(line_name, name) {
            push_line(alloc, &mut named, line_name, value)?;
        }
    }
    Ok(named)
}

/// How the body is encoded: by the first line that encodes it, else by the first.
pub fn encoding_of(lines: &Pairs) -> Option<&str>
    ensures { option_copied result ≡ encoding_of (values_of (codes "content-encoding") lines.now) }
{
    match first_encoded(lines) {
        Some(encoding) => Some(encoding),
        None => first_named(lines, "content-encoding"),
    }
}

/// The first value that says that the body is encoded.
fn first_encoded(lines: &Pairs) -> Option<&str>
    ensures { option_copied result ≡ find is_encoded (values_of (codes "content-encoding") lines.now) }
{
    for (name, value) in lines {
        if encodes(name, value) {
            return Some(value);
        }
    }
    None
}

/// Whether a line says that the body is encoded.
fn encodes(name: &str, value: &str) -> bool
    ensures { result ≡ encodes (name.now, value.now) }
{
    is_named(name, "content-encoding") && !value.eq_ignore_ascii_case("identity")
}

/// Whether a line has this name.
fn is_named(line_name: &str, name: &str) -> bool
    ensures { result ≡ str_eq_ignore_ascii_case line_name.now name.now }
{
    line_name.eq_ignore_ascii_case(name)
}

fn push_line(alloc: Global, lines: &mut Pairs, name: &str, value: &str) -> Result<(), NoMemory>
    ensures { OnOk result (lines.new ≡ lines.old ++ (name.now, value.now) ∷ []) }
{
    lines.push(Text::of(alloc, name)?, Text::of(alloc, value)?)
}
