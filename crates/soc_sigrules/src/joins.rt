//! Texts with a separator between them.
ghost use Rattle.std.specs.Prelude.{◌≡◌, IfOk};
ghost use Rattle.soc_sigrules.specs.Chars.{joined};

use soc_base::{NoMemory, Text, TextList};
use std::alloc::Global;

/// The texts, with the separator between each and the next.
pub fn join(alloc: Global, separator: &str, texts: &TextList) -> Result<Text, NoMemory>
    ensures { IfOk result (λ text. text ≡ joined separator.now texts.now) }
{
    let mut out = String::new(alloc);
    for place in 0..texts.len() {
        if place > 0 {
            out.push_str(separator)?;
        }
        out.push_str(texts.at(place))?;
    }
    Ok(Text::from(out))
}
