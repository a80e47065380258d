//! The frames of a stack as JSON.
ghost use Rattle.std.specs.Prelude.{◌≡◌, ◌++◌, map, option_map, IfOk, OnOk};
ghost use Rattle.std.specs.Option.{option_copied};
ghost use Rattle.soc_frames.specs.Frames.{normal_of};
ghost use Rattle.soc_walk.specs.Views.{frame_copy};
ghost use Rattle.soc_report.specs.Kits.{kit_of};
ghost use Rattle.soc_report.specs.StackText as spec;

use crate::dump::crashing_thread;
use crate::json::{number_member, place_member, put, text_in, text_member};
use crate::kit::Kit;
use soc_base::NoMemory;
use soc_dump::Dump;
use soc_frames::{Frame, Trust, normal};
use soc_schema::put_comma;
use soc_siglists::ListMatchers;
use soc_step::lookup_address;
use soc_walk::{BorrowedFrame, Process, start_of};
use std::alloc::Global;

/// How a frame was found.
fn trust_name(trust: Trust) -> &'static str
    ensures { result.now ≡ spec.trust_name trust }
{
    match trust {
        Trust::Context => "context",
        Trust::Cfi => "cfi",
        Trust::FramePointer => "frame_pointer",
        Trust::Scan => "scan",
    }
}

/// The first of the lists that says something of a frame's text.
fn kind_of(
    alloc: Global,
    lists: &mut ListMatchers<'_>,
    text: &str,
) -> Result<Option<&'static str>, NoMemory>
    ensures lists { lists.new ≡ lists.old }
    ensures kind { IfOk result (λ kind. option_copied kind ≡ spec.kind_of lists.old text.now) }
{
    if lists.is_irrelevant(alloc, text)? {
        return Ok(Some("irrelevant"));
    }
    if lists.is_prefix(alloc, text)? {
        return Ok(Some("prefix"));
    }
    if lists.is_sentinel(alloc, text)? {
        return Ok(Some("sentinel"));
    }
    Ok(None)
}

/// How far the address lies behind the begin of its module, where it is in one.
fn module_offset(frame: &Frame) -> Option<u64>
    ensures { result ≡ option_map (λ _. frame.now.offset) frame.now.module }
{
    match &frame.module {
        Some(_) => Some(frame.offset),
        None => None,
    }
}

fn line_of(frame: &Frame) -> Option<u64>
    ensures { result ≡ frame.now.line }
{
    match frame.line {
        Some(line) => Some(u64::from(line)),
        None => None,
    }
}

/// A frame with its text, and what the lists say of that.
fn put_known(
    alloc: Global,
    out: &mut Vec<u8>,
    process: &Process<'_>,
    place: usize,
    frame: &Frame,
    text: &str,
    kind: Option<&str>,
) -> Result<(), NoMemory>
    ensures { OnOk result (out.new.items ≡ out.old.items
        ++ spec.known_json process.now place frame.now text.now (option_copied kind.entry)) }
{
    let address = lookup_address(place == 0, frame.instruction);
    let offset = process.into_function(address, frame.offset);
    text_member(alloc, out, "{\"file\":", text_in(&frame.file))?;
    number_member(out, ",\"frame\":", Some(place as u64))?;
    text_member(alloc, out, ",\"function\":", text_in(&frame.function))?;
    place_member(alloc, out, ",\"function_offset\":", offset)?;
    text_member(alloc, out, ",\"kind\":", kind)?;
    number_member(out, ",\"line\":", line_of(frame))?;
    text_member(alloc, out, ",\"module\":", text_in(&frame.module))?;
    place_member(alloc, out, ",\"module_offset\":", module_offset(frame))?;
    text_member(alloc, out, ",\"text\":", Some(text))?;
    text_member(alloc, out, ",\"trust\":", Some(trust_name(frame.trust)))?;
    put(out, "}")
}

fn put_copy(
    alloc: Global,
    out: &mut Vec<u8>,
    lists: &mut ListMatchers<'_>,
    process: &Process<'_>,
    place: usize,
    frame: &Frame,
) -> Result<(), NoMemory>
    ensures lists { lists.new ≡ lists.old }
    ensures text { OnOk result (out.new.items ≡ out.old.items
        ++ spec.frame_json lists.old process.now place frame.now) }
{
    let text = normal(alloc, frame)?;
    let kind = kind_of(alloc, lists, text.as_str())?;
    put_known(alloc, out, process, place, frame, text.as_str(), kind)
}

fn put_frame(
    alloc: Global,
    out: &mut Vec<u8>,
    lists: &mut ListMatchers<'_>,
    process: &Process<'_>,
    place: usize,
    frame: &BorrowedFrame<'_>,
) -> Result<(), NoMemory>
    ensures lists { lists.new ≡ lists.old }
    ensures text { OnOk result (out.new.items ≡ out.old.items
        ++ spec.frame_json lists.old process.now place
        (frame_copy process.now.loaded frame.now)) }
{
    let copy = process.frame(alloc, frame)?;
    put_copy(alloc, out, lists, process, place, &copy)
}

/// Frames with commas between them.
fn put_frames(
    alloc: Global,
    out: &mut Vec<u8>,
    lists: &mut ListMatchers<'_>,
    process: &Process<'_>,
    frames: &[BorrowedFrame<'_>],
) -> Result<(), NoMemory>
    ensures lists { lists.new ≡ lists.old }
    ensures text { OnOk result (out.new.items ≡ out.old.items
        ++ spec.frames_json lists.old process.now
        (map (frame_copy process.now.loaded) frames.now)) }
{
    for (place, frame) in frames.iter().enumerate() {
        put_comma(out, place)?;
        put_frame(alloc, out, lists, process, place, frame)?;
    }
    Ok(())
}

/// The frames of a thread.
fn put_thread(
    alloc: Global,
    out: &mut Vec<u8>,
    kit: &Kit<'_>,
    dump: &Dump<'_>,
    thread: usize,
) -> Result<(), NoMemory>
    ensures { OnOk result (out.new.items ≡ out.old.items
        ++ spec.thread_json (kit_of kit.now) dump.now thread) }
{
    let Some(start) = start_of(dump, thread) else {
        return Ok(());
    };
    let process = Process::new(alloc, dump, start.architecture, kit)?;
    let frames = process.walk(alloc, &start.values)?;
    let mut lists = kit.lists().matchers(alloc)?;
    put_frames(alloc, out, &mut lists, &process, frames.as_slice())
}

/// The frames of the crashing thread.
pub fn put_stack(
    alloc: Global,
    out: &mut Vec<u8>,
    kit: &Kit<'_>,
    dump: &Dump<'_>,
) -> Result<(), NoMemory>
    ensures { OnOk result (out.new.items ≡ out.old.items
        ++ spec.stack_json (kit_of kit.now) dump.now) }
{
    match crashing_thread(dump) {
        Some(thread) => put_thread(alloc, out, kit, dump, thread),
        None => Ok(()),
    }
}
