//! The rules that change a signature.
ghost use Rattle.std.specs.Prelude.{◌≡◌, option_map, IfOk};
ghost use Rattle.soc_sigrules.specs.Rules.{apply, note_of};

use crate::crash::Crash;
use crate::rules;
use soc_base::{NoMemory, Text};
use std::alloc::Global;

/// A rule: from the crash and the text so far to a new text, where it applies.
#[derive(Clone, Copy, Debug, PartialEq, Eq)]
pub enum Rule {
    /// An allocation failed.
    OutOfMemory,
    /// The program gave up with a message.
    Abort,
    /// A phase of the shutdown took too long.
    Shutdown,
    /// The watchdog ended a shutdown that hung.
    ShutdownHang,
    /// A channel between processes failed.
    Ipc,
    /// The stack overflowed.
    StackOverflow,
    /// The program hung.
    Hang,
    /// A bit may have flipped in memory.
    BadHardware,
    /// Runs of blanks become one space.
    Spaces,
    /// A long text is cut.
    Cut,
}

/// The rules in the order in which they apply.
pub const RULES: [Rule; 10] = [
    Rule::OutOfMemory,
    Rule::Abort,
    Rule::Shutdown,
    Rule::ShutdownHang,
    Rule::Ipc,
    Rule::StackOverflow,
    Rule::Hang,
    Rule::BadHardware,
    Rule::Spaces,
    Rule::Cut,
];

impl Rule {
    /// The new text, where the rule applies.
    pub fn apply(
        self,
        alloc: Global,
        crash: Crash<'_>,
        text: &str,
    ) -> Result<Option<Text>, NoMemory>
        ensures { IfOk result (λ new. new
            ≡ apply crash.entry.watched crash.entry.input.now self text.now) }
    {
        match self {
            Rule::OutOfMemory => rules::out_of_memory(alloc, crash, text),
            Rule::Abort => rules::abort(alloc, crash, text),
            Rule::Shutdown => rules::shutdown(alloc, crash, text),
            Rule::ShutdownHang => rules::shutdown_hang(alloc, crash, text),
            Rule::Ipc => rules::ipc(alloc, crash, text),
            Rule::StackOverflow => rules::stack_overflow(alloc, crash, text),
            Rule::Hang => rules::hang(alloc, crash, text),
            Rule::BadHardware => rules::bad_hardware(alloc, crash, text),
            Rule::Spaces => rules::spaces(alloc, crash, text),
            Rule::Cut => rules::cut(alloc, crash, text),
        }
    }

    /// What is noted where the rule applied.
    pub fn note(self) -> Option<&'static str>
        ensures { option_map (λ note. note.now) result ≡ note_of self }
    {
        match self {
            Rule::OutOfMemory => Some("oom"),
            Rule::Abort => Some("abort"),
            Rule::Shutdown => Some("shutdown"),
            Rule::ShutdownHang => Some("shutdownhang"),
            Rule::Ipc => Some("ipc"),
            Rule::StackOverflow => Some("stackoverflow"),
            Rule::Hang => Some("hang"),
            Rule::BadHardware => Some("bad_hardware"),
            Rule::Spaces => None,
            Rule::Cut => Some("cut"),
        }
    }
}
