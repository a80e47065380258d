//! The spaces of a C++ name.
ghost use Rattle.std.specs.Prelude.{◌≡◌, ◌<◌, length, drop, IfOk, string_bytes};
ghost use Rattle.std.specs.List.{prefix_len};
ghost use Rattle.std.specs.Str.{IsCharBoundary};
ghost use Rattle.soc_frames.specs.Cpp.{is_mark, comes_to_mark, spaced};
ghost use Rattle.soc_frames.specs.inner.Spaces.{Puts, is_inner, is_space_byte};

use soc_base::{NoMemory, Text};
use soc_text::after;
use std::alloc::Global;

/// Whether no space stands before this byte.
fn is_mark(byte: u8) -> bool
    ensures { result ≡ is_mark byte }
{
    byte == b'*' || byte == b'&' || byte == b','
}

/// How many spaces the text begins with.
fn spaces_len(text: &[u8]) -> usize
    ensures { result ≡ prefix_len is_space_byte text.now }
{
    text.iter().take_while(|byte| **byte == b' ').count()
}

/// Whether the text goes on with `*`, `&` or `,`, maybe behind spaces.
fn comes_to_mark(text: &[u8]) -> bool
    ensures { result ≡ comes_to_mark text.now }
{
    match after(text, spaces_len(text)).first() {
        Some(byte) => is_mark(*byte),
        None => false,
    }
}

/// How many bytes other than spaces and commas the text begins with.
fn inner_len(text: &[u8]) -> usize
    ensures { result ≡ prefix_len is_inner text.now }
{
    text.iter()
        .take_while(|byte| **byte != b' ' && **byte != b',')
        .count()
}

/// Puts a piece of the name right, from a place on: a comma and the spaces behind it, spaces, or what stands up to the
/// next of these. Gives where the next piece begins.
fn put_piece(out: &mut String, name: &str, from: usize) -> Result<usize, NoMemory>
    requires inside { from < length name.now }
    requires boundary { IsCharBoundary name.now from }
    ensures { IfOk result (λ to. Puts name.now from (string_bytes out.old) to
        (string_bytes out.new)) }
{
    let bytes = name.as_bytes();
    if bytes[from] == b',' {
        out.push_str(", ")?;
        return Ok(from + 1 + spaces_len(after(bytes, from + 1)));
    }
    if bytes[from] == b' ' {
        let to = from + spaces_len(after(bytes, from));
        if comes_to_mark(after(bytes, from)) {
            return Ok(to);
        }
        out.push_str(&name[from..to])?;
        return Ok(to);
    }
    let to = from + inner_len(after(bytes, from));
    out.push_str(&name[from..to])?;
    Ok(to)
}

/// The name with no space before `*`, `&` and `,`, and one behind each `,`.
pub fn put_spaces_right(alloc: Global, name: &str) -> Result<Text, NoMemory>
    ensures { IfOk result (λ text. text ≡ spaced name.now) }
{
    let mut out = String::new(alloc);
    let mut from = 0;
    while from < name.len() {
        from = put_piece(&mut out, name, from)?;
    }
    Ok(Text::from(out))
}
