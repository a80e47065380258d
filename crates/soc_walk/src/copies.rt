//! Frames that own their texts.
ghost use Rattle.std.specs.Prelude.{◌≡◌, map, IfOk};
ghost use Rattle.std.specs.Option.{option_copied};
ghost use Rattle.soc_walk.specs.Views.{frame_copy, name_at, named_copy};

use crate::borrowed::BorrowedFrame;
use crate::process::Process;
use soc_base::{Items, NoMemory, Text};
use soc_frames::Frame;
use std::alloc::Global;

/// A copy of a text.
fn text_of(alloc: Global, text: Option<&str>) -> Result<Option<Text>, NoMemory>
    ensures { IfOk result (λ copy. copy ≡ option_copied text.entry) }
{
    match text {
        Some(text) => Ok(Some(Text::of(alloc, text)?)),
        None => Ok(None),
    }
}

impl<'a> BorrowedFrame<'a> {
    /// The frame that it stands for, in a module with this name.
    fn named(&self, alloc: Global, name: Option<Text>) -> Result<Frame, NoMemory>
        ensures { IfOk result (λ copy. copy ≡ named_copy name self.now) }
    {
        let function = text_of(alloc, self.function)?;
        let file = text_of(alloc, self.file)?;
        Ok(Frame {
            instruction: self.instruction,
            trust: self.trust,
            module: name,
            offset: self.offset,
            function,
            file,
            line: self.line,
        })
    }
}

impl<'a> Process<'a> {
    /// The name of the module at an index.
    fn name(&self, alloc: Global, index: usize) -> Result<Option<Text>, NoMemory>
        ensures { IfOk result (λ name. name ≡ name_at self.now.loaded index) }
    {
        let Some(loaded) = self.loaded(index) else {
            return Ok(None);
        };
        Ok(Some(loaded.entry.name(alloc)?))
    }

    /// The frame that a borrowed one of a walk stands for.
    pub fn frame(&self, alloc: Global, frame: &BorrowedFrame<'_>) -> Result<Frame, NoMemory>
        ensures { IfOk result (λ copy. copy ≡ frame_copy self.now.loaded frame.now) }
    {
        let name = match frame.module {
            Some(index) => self.name(alloc, index)?,
            None => None,
        };
        frame.named(alloc, name)
    }
}

/// Copies of frames.
pub fn copy_frames(
    alloc: Global,
    process: &Process<'_>,
    frames: &[BorrowedFrame<'_>],
) -> Result<Items<Frame>, NoMemory>
    ensures { IfOk result (λ copies. copies ≡ map (frame_copy process.now.loaded) frames.now) }
{
    let mut copies = Items::new(alloc);
    for frame in frames {
        copies.push(process.frame(alloc, frame)?)?;
    }
    Ok(copies)
}
