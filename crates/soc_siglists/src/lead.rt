//! What the matches of a pattern begin with.
ghost use Rattle.std.specs.Prelude.{◌≡◌, true, map, IfOk, IsTrue};
ghost use Rattle.regex_hir.specs.Meaning.{meaning, cat_all};
ghost use Rattle.soc_siglists.specs.inner.Leads.{IsOptional, IsFront, Leads};

use regex_hir::Hir;
use soc_base::{NoMemory, Text};
use std::alloc::Global;

/// A text with which each match of a pattern begins.
#[derive(Drop)]
pub struct Lead {
    pub text: Text,
    /// Whether the pattern matches wherever the text stands.
    pub is_all: bool,
}

/// The same, of a pattern's tree.
#[derive(Clone, Copy, Debug)]
struct Front<'a> {
    bytes: &'a [u8],
    is_all: bool,
}

/// Nothing is known of how matches begin.
const UNKNOWN: Front<'static> = Front {
    bytes: b"",
    is_all: false,
};

/// Whether the tree matches the empty text, wherever that stands.
fn is_optional(hir: &Hir) -> bool
    ensures { IsTrue result → IsOptional (meaning hir.now) }
{
    match hir {
        Hir::Empty => true,
        Hir::Repetition { min, .. } => *min == 0,
        _ => false,
    }
}

/// Whether each of the trees does.
fn are_optional(subs: &[Hir]) -> bool
    ensures { IsTrue result → IsOptional (cat_all (map meaning subs.now)) }
{
    for sub in subs {
        if !is_optional(sub) {
            return false;
        }
    }
    true
}

/// What the matches of trees behind each other begin with.
fn front_of_all(subs: &[Hir]) -> Front<'_>
    ensures { IsFront (cat_all (map meaning subs.now)) result }
{
    let Some((first, rest)) = subs.split_first() else {
        return UNKNOWN;
    };
    let Hir::Literal(bytes) = first else {
        return UNKNOWN;
    };
    Front {
        bytes,
        is_all: are_optional(rest),
    }
}

/// What the matches of a tree begin with: the literal that it is or begins with.
fn front_of(hir: &Hir) -> Front<'_>
    ensures { IsFront (meaning hir.now) result }
{
    match hir {
        Hir::Literal(bytes) => Front {
            bytes,
            is_all: true,
        },
        Hir::Concat(subs) => front_of_all(subs),
        _ => UNKNOWN,
    }
}

/// What the matches of a tree begin with, as text.
pub fn lead_of(alloc: Global, hir: &Hir) -> Result<Lead, NoMemory>
    ensures { IfOk result (Leads (meaning hir.now)) }
{
    let front = front_of(hir);
    match str::from_utf8(front.bytes) {
        Ok(text) => Ok(Lead {
            text: Text::of(alloc, text)?,
            is_all: front.is_all,
        }),
        Err(_) => Ok(Lead {
            text: Text::of(alloc, "")?,
            is_all: false,
        }),
    }
}
