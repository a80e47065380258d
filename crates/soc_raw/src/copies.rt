//! Copies of maps, and maps that are the same.
ghost use Rattle.std.specs.Prelude.{◌≡◌, ◌↔◌, IfOk, IsTrue};

use soc_base::{Blobs, NoMemory, Texts};
use std::alloc::Global;

/// The same texts by the same names.
pub fn copy_of_texts(alloc: Global, texts: &Texts) -> Result<Texts, NoMemory>
    ensures { IfOk result (λ copy. copy ≡ texts.now) }
{
    let mut copy = Texts::new(alloc);
    for (name, value) in texts {
        copy.set_copy(alloc, name, value)?;
    }
    Ok(copy)
}

/// The same bytes by the same names.
pub fn copy_of_blobs(alloc: Global, blobs: &Blobs) -> Result<Blobs, NoMemory>
    ensures { IfOk result (λ copy. copy ≡ blobs.now) }
{
    let mut copy = Blobs::new(alloc);
    for (name, value) in blobs {
        copy.set_copy(alloc, name, value)?;
    }
    Ok(copy)
}

/// Whether two maps have the same names with the same texts.
pub fn are_same_texts(a: &Texts, b: &Texts) -> bool
    ensures { IsTrue result ↔ (a.now ≡ b.now) }
{
    a.iter().eq(b)
}

/// Whether two maps have the same names with the same bytes.
pub fn are_same_blobs(a: &Blobs, b: &Blobs) -> bool
    ensures { IsTrue result ↔ (a.now ≡ b.now) }
{
    a.iter().eq(b)
}
