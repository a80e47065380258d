//! Parts that own their contents.
ghost use Rattle.std.specs.Prelude.{◌≡◌, IfOk};
ghost use Rattle.soc_multipart.specs.inner.Sections.{part_with};
ghost use Rattle.soc_multipart.specs.OwnedViews.{owned_text};
ghost use Rattle.soc_multipart.specs.PartViews.{part_text};

use crate::dispositions::Head;
use crate::parts::Part;
use soc_base::{Bytes, NoMemory, Text};
use std::alloc::Global;

/// A part of a body that was read in pieces.
#[derive(Debug, Drop)]
pub struct OwnedPart {
    /// The name of its field.
    pub name: Text,
    /// The name of its file, where it has one.
    pub file: Option<Text>,
    /// The value of its `Content-Type`, or nothing.
    pub kind: Text,
    pub content: Bytes,
}

/// The parts of a body, in order.
pub type OwnedParts = Vec<OwnedPart>;

/// The part with its content in memory of its own.
pub fn owned(alloc: Global, part: Part<'_>) -> Result<OwnedPart, NoMemory>
    ensures { IfOk result (λ new. owned_text new ≡ part_text part.entry) }
{
    let Part {
        name,
        file,
        kind,
        content,
    } = part;
    Ok(OwnedPart {
        name,
        file,
        kind,
        content: Bytes::of(alloc, content)?,
    })
}

/// The part of this head with this content.
pub fn with_content(head: Head, content: Bytes) -> OwnedPart
    ensures { owned_text result ≡ part_with head content }
{
    let Head { name, file, kind } = head;
    OwnedPart {
        name,
        file,
        kind,
        content,
    }
}
