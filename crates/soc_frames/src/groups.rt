//! A name without what stands in brackets.
ghost use Rattle.std.specs.Prelude.{◌≡◌, IfOk, IsTrue};
ghost use Rattle.soc_frames.specs.Collapse.{collapsed, outer_text};
ghost use Rattle.soc_frames.specs.inner.Walks.{opens};

use crate::walk::{Place, Walk};
use soc_base::{NoMemory, Text};
use std::alloc::Global;

/// What stands for a group of `<`.
pub const TEMPLATE: &str = "<T>";

/// What stands for the group that a place opens.
fn group_text(place: Place) -> &'static str
    requires { IsTrue (opens place) }
    ensures { result.now ≡ outer_text place }
{
    if place.byte == b'<' { TEMPLATE } else { "" }
}

/// A name without what stands in brackets: `<T>` stands for a group of `<`, and nothing for one of `(`. A group that
/// isn't closed ends with the name. The brackets of `->`, of `(anonymous namespace)` and of an operator's name don't
/// count.
pub fn collapse(alloc: Global, s: &str) -> Result<Text, NoMemory>
    ensures { IfOk result (λ text. text ≡ collapsed s.now) }
{
    let mut out = String::new(alloc);
    let mut walk = Walk::over(s.as_bytes());
    let mut kept = 0;
    'places: loop {
        let start = walk.place;
        let Some(place) = walk.next_outer() else {
            out.push_str(&s[kept..])?;
            return Ok(Text::from(out));
        };
        if !place.opens() {
            continue;
        }
        out.push_str(&s[kept..start])?;
        let text = group_text(place);
        out.push_str(text)?;
        kept = walk.place;
    }
}
