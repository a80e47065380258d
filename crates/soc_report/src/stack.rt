//! The crashing thread's stack, and the signature that its frames make.
ghost use Rattle.std.specs.Prelude.{◌≡◌, map, IfOk};
ghost use Rattle.std.specs.Option.{option_copied};
ghost use Rattle.soc_frames.specs.Frames.{normal_of};
ghost use Rattle.soc_raw.specs.RawCrash.{crash_of};
ghost use Rattle.soc_report.specs.Annotations as annotations;
ghost use Rattle.soc_report.specs.Dumps.{dump_in};
ghost use Rattle.soc_report.specs.Kits.{kit_of};
ghost use Rattle.soc_report.specs.Stacks as spec;
ghost use Rattle.soc_report.specs.inner.Stacks.{overflows, names_browser, signed_of};

use crate::annotations::{is_set, lists_browser, text_at};
use crate::dump::{Reading, crashing_thread, reason_of};
use crate::kit::Kit;
use soc_base::{Items, NoMemory, Text, TextList};
use soc_dump::Dump;
use soc_frames::{Frame, normal};
use soc_raw::RawCrash;
use soc_sigrules::{SigInput, Signature, signature};
use soc_walk::walk;
use std::alloc::Global;

/// The reason that tells of a stack's overflow.
const OVERFLOW: &str = "EXCEPTION_STACK_OVERFLOW";

/// The signature of a crash, and how many frames were walked.
#[derive(Debug, Drop)]
pub struct Signed {
    pub signature: Signature,
    pub frame_count: u64,
}

/// The frames of the crashing thread; none without such a thread.
fn frames_in(alloc: Global, kit: &Kit<'_>, dump: &Dump<'_>) -> Result<Items<Frame>, NoMemory>
    ensures { IfOk result (λ frames. frames ≡ spec.frames_in (kit_of kit.now) dump.now) }
{
    match crashing_thread(dump) {
        Some(thread) => walk(alloc, dump, thread, kit),
        None => Ok(Items::new(alloc)),
    }
}

/// The same; none without a dump.
fn stack_of(alloc: Global, kit: &Kit<'_>, dump: Option<&Dump<'_>>) -> Result<Items<Frame>, NoMemory>
    ensures { IfOk result (λ frames. frames
        ≡ spec.stack_of (kit_of kit.now) (option_copied dump.entry)) }
{
    match dump {
        Some(dump) => frames_in(alloc, kit, dump),
        None => Ok(Items::new(alloc)),
    }
}

/// The texts of frames.
fn texts_of(alloc: Global, frames: &[Frame]) -> Result<TextList, NoMemory>
    ensures { IfOk result (λ texts. texts ≡ map normal_of frames.now) }
{
    let mut texts = TextList::new(alloc);
    for frame in frames {
        texts.push(normal(alloc, frame)?)?;
    }
    Ok(texts)
}

/// An annotation, in memory of its own.
fn copy_of(alloc: Global, raw: &RawCrash, name: &str) -> Result<Option<Text>, NoMemory>
    ensures { IfOk result (λ text. text ≡ annotations.text_at (crash_of raw.now) name.now) }
{
    match text_at(raw, name) {
        Some(text) => Ok(Some(Text::of(alloc, text)?)),
        None => Ok(None),
    }
}

/// The place of the crashing thread, where a dump has one.
pub fn thread_of(dump: Option<&Dump<'_>>) -> Option<usize>
    ensures { result ≡ spec.thread_of (option_copied dump.entry) }
{
    crashing_thread(dump?)
}

/// Whether a dump tells that the stack overflowed.
fn is_overflow(alloc: Global, dump: Option<&Dump<'_>>) -> Result<bool, NoMemory>
    ensures { IfOk result (λ answer. answer ≡ overflows (option_copied dump.entry)) }
{
    let Some(dump) = dump else {
        return Ok(false);
    };
    match reason_of(alloc, dump)? {
        Some(reason) => Ok(reason.as_str() == OVERFLOW),
        None => Ok(false),
    }
}

/// Whether the browser's process is the one at the other end of a failed channel.
fn is_browser(raw: &RawCrash) -> bool
    ensures { result ≡ names_browser (crash_of raw.now) }
{
    match text_at(raw, "additional_minidumps") {
        Some(text) => lists_browser(text),
        None => false,
    }
}

/// What the signature of a crash is made of.
fn input_of(
    alloc: Global,
    raw: &RawCrash,
    dump: Option<&Dump<'_>>,
    frames: &[Frame],
) -> Result<SigInput, NoMemory>
    ensures { IfOk result (λ input. input
        ≡ spec.input_of (crash_of raw.now) (option_copied dump.entry) frames.now) }
{
    Ok(SigInput {
        thread_found: thread_of(dump).is_some(),
        frames: texts_of(alloc, frames)?,
        oom: copy_of(alloc, raw, "OOMAllocationSize")?,
        abort: copy_of(alloc, raw, "AbortMessage")?,
        shutdown: copy_of(alloc, raw, "AsyncShutdownTimeout")?,
        ipc: copy_of(alloc, raw, "ipc_channel_error")?,
        ipc_browser: is_browser(raw),
        overflow: is_overflow(alloc, dump)?,
        hang: is_set(raw, "Hang"),
        bad_hardware: is_set(raw, "PossibleBitFlip"),
    })
}

/// The signature of a crash.
pub fn sign(
    alloc: Global,
    kit: &Kit<'_>,
    raw: &RawCrash,
    reading: &Reading<'_>,
) -> Result<Signed, NoMemory>
    ensures { IfOk result (λ signed. signed
        ≡ signed_of (kit_of kit.now) (crash_of raw.now) (dump_in reading.now)) }
{
    let dump = reading.dump();
    let frames = stack_of(alloc, kit, dump)?;
    let input = input_of(alloc, raw, dump, frames.as_slice())?;
    Ok(Signed {
        signature: signature(alloc, &input, kit.lists())?,
        frame_count: frames.len() as u64,
    })
}
