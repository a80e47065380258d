//! The entries of a list file.
ghost use Rattle.std.specs.Prelude.{◌≡◌, map, IfOk};
ghost use Rattle.soc_siglists.specs.Reading.{patterns_in};

use crate::lines::{is_entry, split_line, text_of};
use soc_base::NoMemory;
use std::alloc::Global;

/// The texts of a list file: its lines without the spaces, tabs and carriage returns at their ends, but for empty ones
/// and those that begin with `#`.
pub fn entry_texts(alloc: Global, bytes: &[u8]) -> Result<Vec<&[u8]>, NoMemory>
    ensures { IfOk result (λ texts. map (λ text. text.now) texts.items ≡ patterns_in bytes.now) }
{
    let mut texts = Vec::new(alloc);
    let mut rest = bytes;
    while !rest.is_empty() {
        let (line, others) = split_line(rest);
        let text = text_of(line);
        if is_entry(text) {
            texts.push(text)?;
        }
        rest = others;
    }
    Ok(texts)
}
