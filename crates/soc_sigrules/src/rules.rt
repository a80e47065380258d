//! Each rule, from the crash and the text so far to a new text, where it applies.
ghost use Rattle.std.specs.Prelude.{◌≡◌, ◌++◌, IfOk, Some};
ghost use Rattle.soc_sigrules.specs.Rules.{apply, memory_text, abort_text, ipc_text, only_if};
ghost use Rattle.soc_sigrules.specs.declared.rule.Rule.TheVariants.{OutOfMemory, Abort, Shutdown, ShutdownHang, Ipc, StackOverflow, Hang, BadHardware, Spaces, Cut};

use crate::chars::{at_most, cut as cut_text, first_chars, is_longer};
use crate::crash::Crash;
use crate::shutdown::shutdown_text;
use crate::spaces::spaced;
use soc_base::{NoMemory, Text};
use soc_text::number;
use std::alloc::Global;

/// The most digits that a size has.
const SIZE_DIGITS: usize = 18;

/// The size in bytes up to which a failed allocation is small: nothing but the want of memory explains it.
const SMALL: u64 = 262_144;

/// How many characters of a message are kept.
const MESSAGE: usize = 80;

/// How many characters of a channel's error are kept.
const CHANNEL_ERROR: usize = 100;

/// How many characters a signature has at most.
const MOST: usize = 255;

/// The text behind this front, where the rule applies.
fn prefixed(alloc: Global, applies: bool, front: &str, text: &str) -> Result<Option<Text>, NoMemory>
    ensures { IfOk result (λ new. new ≡ only_if applies (front.now ++ text.now)) }
{
    if !applies {
        return Ok(None);
    }
    Ok(Some(Text::from(format!(in alloc; "{front}{text}")?)))
}

fn memory_text(alloc: Global, size: &str, text: &str) -> Result<Text, NoMemory>
    ensures { IfOk result (λ new. new ≡ memory_text size.now text.now) }
{
    match number(size.as_bytes(), SIZE_DIGITS) {
        Some(size) => {
            if size <= SMALL {
                Text::of(alloc, "OOM | small")
            } else {
                Ok(Text::from(format!(in alloc; "OOM | large | {text}")?))
            }
        }
        None => Ok(Text::from(format!(in alloc; "OOM | unknown | {text}")?)),
    }
}

/// An allocation failed.
pub fn out_of_memory(alloc: Global, crash: Crash<'_>, text: &str) -> Result<Option<Text>, NoMemory>
    ensures { IfOk result (λ new. new
        ≡ apply crash.entry.watched crash.entry.input.now OutOfMemory text.now) }
{
    match &crash.input.oom {
        Some(size) => Ok(Some(memory_text(alloc, size.as_str(), text)?)),
        None => Ok(None),
    }
}

fn abort_text(alloc: Global, message: &str, text: &str) -> Result<Text, NoMemory>
    ensures { IfOk result (λ new. new ≡ abort_text message.now text.now) }
{
    let message = at_most(alloc, message, MESSAGE)?;
    let message = message.as_str();
    Ok(Text::from(format!(in alloc; "Abort | {message} | {text}")?))
}

/// The program gave up with a message.
pub fn abort(alloc: Global, crash: Crash<'_>, text: &str) -> Result<Option<Text>, NoMemory>
    ensures { IfOk result (λ new. new
        ≡ apply crash.entry.watched crash.entry.input.now Abort text.now) }
{
    match &crash.input.abort {
        Some(message) => Ok(Some(abort_text(alloc, message.as_str(), text)?)),
        None => Ok(None),
    }
}

/// A phase of the shutdown took too long.
pub fn shutdown(alloc: Global, crash: Crash<'_>, _text: &str) -> Result<Option<Text>, NoMemory>
    ensures { IfOk result (λ new. new
        ≡ apply crash.entry.watched crash.entry.input.now Shutdown _text.now) }
{
    match &crash.input.shutdown {
        Some(description) => Ok(Some(shutdown_text(alloc, description.as_str())?)),
        None => Ok(None),
    }
}

/// The watchdog ended a shutdown that hung.
pub fn shutdown_hang(alloc: Global, crash: Crash<'_>, text: &str) -> Result<Option<Text>, NoMemory>
    ensures { IfOk result (λ new. new
        ≡ apply crash.entry.watched crash.entry.input.now ShutdownHang text.now) }
{
    prefixed(alloc, crash.watched, "shutdownhang | ", text)
}

fn ipc_text(alloc: Global, is_browser: bool, error: &str) -> Result<Text, NoMemory>
    ensures { IfOk result (λ new. new ≡ ipc_text is_browser error.now) }
{
    let front = if is_browser {
        "IPCError-browser | "
    } else {
        "IPCError-content | "
    };
    let error = first_chars(error, CHANNEL_ERROR);
    Ok(Text::from(format!(in alloc; "{front}{error}")?))
}

/// A channel between processes failed.
pub fn ipc(alloc: Global, crash: Crash<'_>, _text: &str) -> Result<Option<Text>, NoMemory>
    ensures { IfOk result (λ new. new
        ≡ apply crash.entry.watched crash.entry.input.now Ipc _text.now) }
{
    match &crash.input.ipc {
        Some(error) => Ok(Some(ipc_text(alloc, crash.input.ipc_browser, error.as_str())?)),
        None => Ok(None),
    }
}

/// The stack overflowed.
pub fn stack_overflow(alloc: Global, crash: Crash<'_>, text: &str) -> Result<Option<Text>, NoMemory>
    ensures { IfOk result (λ new. new
        ≡ apply crash.entry.watched crash.entry.input.now StackOverflow text.now) }
{
    prefixed(alloc, crash.input.overflow, "stackoverflow | ", text)
}

/// The program hung.
pub fn hang(alloc: Global, crash: Crash<'_>, text: &str) -> Result<Option<Text>, NoMemory>
    ensures { IfOk result (λ new. new
        ≡ apply crash.entry.watched crash.entry.input.now Hang text.now) }
{
    prefixed(alloc, crash.input.hang, "hang | ", text)
}

/// A bit may have flipped in memory.
pub fn bad_hardware(alloc: Global, crash: Crash<'_>, text: &str) -> Result<Option<Text>, NoMemory>
    ensures { IfOk result (λ new. new
        ≡ apply crash.entry.watched crash.entry.input.now BadHardware text.now) }
{
    prefixed(alloc, crash.input.bad_hardware, "bad hardware | ", text)
}

/// Runs of blanks become one space.
pub fn spaces(alloc: Global, _crash: Crash<'_>, text: &str) -> Result<Option<Text>, NoMemory>
    ensures { IfOk result (λ new. new
        ≡ apply _crash.entry.watched _crash.entry.input.now Spaces text.now) }
{
    Ok(Some(spaced(alloc, text)?))
}

/// A long text is cut.
pub fn cut(alloc: Global, _crash: Crash<'_>, text: &str) -> Result<Option<Text>, NoMemory>
    ensures { IfOk result (λ new. new
        ≡ apply _crash.entry.watched _crash.entry.input.now Cut text.now) }
{
    if is_longer(text, MOST) {
        Ok(Some(cut_text(alloc, text, MOST)?))
    } else {
        Ok(None)
    }
}
