//! From frame to frame.
ghost use Rattle.std.specs.Prelude.{◌≡◌, true, List, Some, map, slice_get, IfOk};
ghost use Rattle.soc_frames.specs.declared.frame.Trust.TheVariants.{Context};
ghost use Rattle.soc_step.specs.Views.{registers_of};
ghost use Rattle.soc_walk.specs.Process.{LoadedEntry};
ghost use Rattle.soc_walk.specs.Views.{frame_copy, loaded_entry};
ghost use Rattle.soc_walk.specs.Walk as spec;

use crate::borrowed::BorrowedFrame;
use crate::loaded::Loaded;
use crate::process::Process;
use soc_base::NoMemory;
use soc_frames::Trust;
use soc_step::{Caller, PLACES, Registers, lookup_address};
use std::alloc::Global;

/// How many frames a walk gives at most.
const MOST_FRAMES: u64 = 1024;

/// Registers on the process's machine.
fn on_machine(process: &Process<'_>, values: &[Option<u64>; PLACES]) -> Registers
    ensures { registers_of result ≡ spec.on_machine process.now values.now }
{
    Registers {
        machine: process.architecture().machine(),
        values: *values,
    }
}

/// A frame in a module.
fn in_module<'p>(
    instruction: u64,
    address: u64,
    trust: Trust,
    index: usize,
    loaded: &Loaded<'p>,
) -> BorrowedFrame<'p>
    ensures { (all : List LoadedEntry) → slice_get all index ≡ Some (loaded_entry loaded.now)
        → frame_copy all result ≡ spec.in_module instruction address trust
        (loaded_entry loaded.now) }
{
    let offset = address.saturating_sub(loaded.entry.base);
    let module = Some(index);
    match loaded.symbols {
        Some(symbols) => {
            let found = symbols.find(offset);
            BorrowedFrame {
                instruction,
                trust,
                module,
                offset,
                function: found.function,
                file: found.file,
                line: found.line,
            }
        }
        None => BorrowedFrame {
            instruction,
            trust,
            module,
            offset,
            function: None,
            file: None,
            line: None,
        },
    }
}

/// A frame in no module.
fn in_no_module<'p>(instruction: u64, address: u64, trust: Trust) -> BorrowedFrame<'p>
    ensures { (all : List LoadedEntry)
        → frame_copy all result ≡ spec.in_no_module instruction address trust }
{
    BorrowedFrame {
        instruction,
        trust,
        module: None,
        offset: address,
        function: None,
        file: None,
        line: None,
    }
}

/// A frame that was looked up at an address.
fn frame_at<'p>(
    process: &'p Process<'_>,
    instruction: u64,
    address: u64,
    trust: Trust,
) -> BorrowedFrame<'p>
    ensures { frame_copy process.now.loaded result
        ≡ spec.frame_at process.now instruction address trust }
{
    let Some(index) = process.index_at(address) else {
        return in_no_module(instruction, address, trust);
    };
    match process.loaded(index) {
        Some(loaded) => in_module(instruction, address, trust, index, &loaded),
        None => in_no_module(instruction, address, trust),
    }
}

/// The frame of registers.
fn frame_of<'p>(process: &'p Process<'_>, first: bool, here: &Caller) -> BorrowedFrame<'p>
    ensures { frame_copy process.now.loaded result ≡ spec.frame_of process.now first here.now }
{
    let registers = on_machine(process, &here.values);
    let instruction = registers.instruction_pointer().unwrap_or(0);
    let address = lookup_address(first, instruction);
    frame_at(process, instruction, address, here.trust)
}

/// Whether a number is greater than another one, both being known.
fn is_greater(number: Option<u64>, other: Option<u64>) -> bool
    ensures { result ≡ spec.is_greater number other }
{
    match (number, other) {
        (Some(number), Some(other)) => number > other,
        _ => false,
    }
}

/// Whether a walk goes on from some registers to a caller's.
fn goes_on(
    process: &Process<'_>,
    values: &[Option<u64>; PLACES],
    caller: &[Option<u64>; PLACES],
) -> bool
    ensures { result ≡ spec.goes_on process.now values.now caller.now }
{
    let here = on_machine(process, values);
    let next = on_machine(process, caller);
    is_greater(next.instruction_pointer(), Some(0))
        && is_greater(next.stack_pointer(), here.stack_pointer())
}

/// The caller with which a walk goes on.
fn next_of(process: &Process<'_>, first: bool, values: &[Option<u64>; PLACES]) -> Option<Caller>
    ensures { result ≡ spec.next_of process.now first values.now }
{
    let caller = on_machine(process, values).caller(first, process)?;
    if goes_on(process, values, &caller.values) {
        Some(caller)
    } else {
        None
    }
}

impl<'a> Process<'a> {
    /// The frames from the one on that has these registers, the innermost first, at most 1,024. They
    /// borrow the symbols' texts, and name modules by their indexes.
    pub fn walk(
        &self,
        alloc: Global,
        values: &[Option<u64>; PLACES],
    ) -> Result<Vec<BorrowedFrame<'_>>, NoMemory>
        ensures { IfOk result (λ frames. map (frame_copy self.now.loaded) frames.items
            ≡ spec.frames_from self.now spec.most_frames true
            (record { values = values.now; trust = Context })) }
    {
        let mut frames = Vec::new(alloc);
        let mut here = Caller {
            values: *values,
            trust: Trust::Context,
        };
        let mut first = true;
        for _ in 0..MOST_FRAMES {
            frames.push(frame_of(self, first, &here))?;
            let Some(caller) = next_of(self, first, &here.values) else {
                return Ok(frames);
            };
            here = caller;
            first = false;
        }
        Ok(frames)
    }
}
