//! The text of a frame.
ghost use Rattle.std.specs.Prelude.{◌≡◌, IfOk};
ghost use Rattle.soc_frames.specs.Frames.{address_text, place_text, normal_of};

use crate::cpp::cpp_text;
use crate::frame::Frame;
use crate::rust::rust_name;
use soc_base::{NoMemory, Text};
use soc_text::base_name;
use std::alloc::Global;

/// Where a frame lies: in its module, or in memory.
fn address_text(alloc: Global, frame: &Frame) -> Result<Text, NoMemory>
    ensures { IfOk result (λ text. text ≡ address_text frame.now) }
{
    let offset = frame.offset;
    let instruction = frame.instruction;
    match &frame.module {
        Some(module) => {
            let module = module.as_str();
            Ok(Text::from(format!(in alloc; "{module}@0x{offset:x}")?))
        }
        None => Ok(Text::from(format!(in alloc; "@0x{instruction:x}")?)),
    }
}

/// The text of a frame without a function: its file and line where both are there, else where it lies.
fn place_text(alloc: Global, frame: &Frame) -> Result<Text, NoMemory>
    ensures { IfOk result (λ text. text ≡ place_text frame.now) }
{
    let Some(file) = &frame.file else {
        return address_text(alloc, frame);
    };
    let Some(line) = frame.line else {
        return address_text(alloc, frame);
    };
    let file = base_name(file.as_str());
    Ok(Text::from(format!(in alloc; "{file}#{line}")?))
}

/// The text of a frame. Without a function it is `file#line`, `module@0x` and the offset, or `@0x` and the instruction
/// pointer's value. With one it is the function's name by the rules of Rust, where the file ends in `.rs`, or else of
/// C++.
pub fn normal(alloc: Global, frame: &Frame) -> Result<Text, NoMemory>
    ensures { IfOk result (λ text. text ≡ normal_of frame.now) }
{
    let Some(function) = &frame.function else {
        return place_text(alloc, frame);
    };
    let function = function.as_str();
    if frame.is_rust() {
        rust_name(alloc, function)
    } else {
        cpp_text(alloc, function)
    }
}
