//! The frames of a thread's stack.
ghost use Rattle.std.specs.Prelude.{◌≡◌, IfOk};
ghost use Rattle.soc_dump.specs.Views.{thread_entry};
ghost use Rattle.soc_walk.specs.Walk as spec;

use crate::architecture::Architecture;
use crate::copies::copy_frames;
use crate::process::Process;
use crate::symbols::Symbols;
use soc_base::{Items, NoMemory};
use soc_dump::{Dump, Thread};
use soc_frames::Frame;
use soc_step::PLACES;
use std::alloc::Global;

/// Where the walk of a thread's stack begins.
#[derive(Clone, Copy, Debug)]
pub struct Start {
    pub architecture: Architecture,
    /// The registers of the thread's context.
    pub values: [Option<u64>; PLACES],
}

/// The context of a thread: the exception's where that names the thread, else its own.
fn context_of<'d>(dump: &'d Dump<'_>, thread: &'d Thread<'_>) -> &'d [u8]
    ensures { result.now ≡ spec.context_of dump.now.exception (thread_entry thread.now) }
{
    match dump.exception() {
        Some(exception) if exception.thread == thread.id => exception.context,
        Some(_) => thread.context,
        None => thread.context,
    }
}

/// Where the walk of a thread begins; the thread is an index of the dump's. `None` without such a
/// thread, without a system, on an architecture other than x86, AMD64 and ARM64, and where the
/// context is too small.
pub fn start_of(dump: &Dump<'_>, thread: usize) -> Option<Start>
    ensures { result ≡ spec.start_of dump.now thread }
{
    let thread = dump.threads().get(thread)?;
    let architecture = Architecture::of(dump.system()?.arch)?;
    let values = architecture.context_values(context_of(dump, thread))?;
    Some(Start {
        architecture,
        values,
    })
}

/// The frames of a thread's stack, the innermost first, at most 1,024. The thread is an index of the
/// dump's. The first frame is that of the exception's context where the exception names the thread,
/// else of the thread's; each other one is the caller of the one before it. The walk ends where none
/// is found, and where the caller's instruction pointer is 0 or its stack pointer isn't greater than
/// the frame's.
///
/// There are no frames without a system, on an architecture other than x86, AMD64 and ARM64, and
/// where the context is too small.
pub fn walk<Y: Symbols>(
    alloc: Global,
    dump: &Dump<'_>,
    thread: usize,
    symbols: &Y,
) -> Result<Items<Frame>, NoMemory>
    ensures { IfOk result (λ frames. frames
        ≡ spec.frames_of (Y.symbols symbols.now) dump.now thread) }
{
    let Some(start) = start_of(dump, thread) else {
        return Ok(Items::new(alloc));
    };
    let process = Process::new(alloc, dump, start.architecture, symbols)?;
    let frames = process.walk(alloc, &start.values)?;
    copy_frames(alloc, &process, frames.as_slice())
}
