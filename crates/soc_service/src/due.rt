//! What a command's turn leaves to do and to count.
ghost use Rattle.std.specs.Prelude.{◌≡◌, ◌≤◌, ◌-◌, ◌||◌, if◌then◌else◌};
ghost use Rattle.soc_service.specs.Due.{asked_id, due_after, keeps_all};

use soc_desk::{Command, Reply};
use soc_raw::CrashId;

/// The crash that a command asks for.
pub(crate) fn asked_id(command: &Command) -> Option<CrashId>
    ensures { result ≡ asked_id command.now }
{
    match command {
        Command::Priority { id, .. } | Command::Reprocess { id, .. } => Some(*id),
        _ => None,
    }
}

/// The crash that a reply says is due, where the command asked for this one.
pub(crate) fn due_after(asked: Option<CrashId>, reply: &Reply) -> Option<CrashId>
    ensures { result ≡ due_after asked reply.now }
{
    match reply {
        Reply::Stored { id, due: true } => Some(*id),
        Reply::Asked { due: true, .. } => asked,
        _ => None,
    }
}

/// Whether what the command adds to the log is kept, each change of it. What else is added says that crashes were processed.
pub(crate) fn keeps_all(command: &Command) -> bool
    ensures { result ≡ keeps_all command.now }
{
    !matches!(
        command,
        Command::Turn { .. } | Command::Drain { .. } | Command::Finish { .. }
    )
}

/// How many changes are kept of a turn that goes from its start to its front.
pub(crate) fn kept_between(keeps: bool, start: u64, front: u64) -> u64
    requires { start ≤ front }
    ensures { result ≡ (if keeps then front - start else 0) }
{
    if keeps { front - start } else { 0 }
}

/// Whether one of two holds.
pub(crate) fn is_either(one: bool, other: bool) -> bool
    ensures { result ≡ (one || other) }
{
    one || other
}
