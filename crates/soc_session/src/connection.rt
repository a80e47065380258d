//! One connection: messages in, replies out.
ghost use Rattle.std.specs.Prelude.{◌≡◌, ◌≢◌, ◌≤◌, ◌||◌, [], OnOk, OnErr, Some, None, false};
ghost use Rattle.soc_edge.specs.Ahead.{outlook};
ghost use Rattle.soc_edge.specs.Told.{HasCause, NeverFall, OnlyWrites, WriteFailed, Writes, WritesFront};
ghost use Rattle.soc_http.specs.Reply.{reply_text};
ghost use Rattle.soc_session.specs.inner.Arrivals.{IsSized};
ghost use Rattle.soc_session.specs.Replies.{closing, no_memory};
ghost use Rattle.soc_session.specs.Desk.{ways};
ghost use Rattle.soc_session.specs.Session.{Serves, around};
ghost use Rattle.soc_session.specs.inner.Steps.{Halts, IsNext, Refuses, Responds, StepsOn};
ghost use Rattle.soc_session.specs.inner.Plans.{reply_of};

use crate::answers::answer;
use crate::arrivals::{Incoming, next_message};
use crate::ending::SessionEnd;
use crate::replies::Room;
use crate::setting::Setting;
use crate::stacks::Stacks;
use soc_desk::Desk;
use soc_edge::{Clock, Draws, Sink, Source};
use soc_http::{Answered, Buffer, HeadError, WriteFault, write_reply};
use std::alloc::Global;

/// Whether a session goes on behind a message.
#[derive(Clone, Copy)]
pub(crate) enum Next {
    /// It does, and so many bytes were answered.
    GoesOn(u64),
    /// It ends.
    Ends(SessionEnd),
}

/// Answers the messages of a link in order, over whatever desk stands behind, until the input ends, a reply is the last
/// one, or the messages answered hold `session_bytes` bytes or more. The buffer's window is empty at the call.
pub fn session<K: Desk, S: Stacks, X: Source + Sink, C: Clock, W: Draws>(
    setting: &Setting<'_, S>,
    desk: &mut K,
    link: &mut X,
    buffer: &mut Buffer,
    clock: &mut C,
    draws: &mut W,
) -> SessionEnd
    requires { buffer.old ≡ [] }
    ensures serves { Serves K.Asks
        (ways setting.now.rules.now (S.stack_of setting.now.stacks.now))
        (around (X.told link.old) desk.old (outlook (C.told clock.old) (W.told draws.old)))
        (around (X.told link.new) desk.new (outlook (C.told clock.new) (W.told draws.new)))
        buffer.new result }
    ensures never_fall { NeverFall (X.told link.old) (X.told link.new) }
    ensures cause { HasCause (result ≡ SessionEnd.ReadFault) (result ≡ SessionEnd.WriteFault)
        (X.told link.old) (X.told link.new) }
{
    let mut left = setting.rules.session_bytes;
    if left == 0 {
        return SessionEnd::TooLong;
    }
    let Ok(room) = Room::new(setting.alloc) else {
        return SessionEnd::NoMemory;
    };
    let mut spare = room.no_memory();
    while left > 0 {
        match answer_next(setting, desk, link, buffer, clock, draws, &mut spare) {
            Next::GoesOn(bytes) => left = left.saturating_sub(bytes),
            Next::Ends(end) => return end,
        }
    }
    SessionEnd::TooLong
}

/// Answers the next message.
fn answer_next<K: Desk, S: Stacks, X: Source + Sink, C: Clock, W: Draws>(
    setting: &Setting<'_, S>,
    desk: &mut K,
    link: &mut X,
    buffer: &mut Buffer,
    clock: &mut C,
    draws: &mut W,
    spare: &mut Answered,
) -> Next
    requires { closing false spare.old ≡ no_memory }
    ensures steps { StepsOn K.Asks
        (ways setting.now.rules.now (S.stack_of setting.now.stacks.now)) buffer.old
        (around (X.told link.old) desk.old (outlook (C.told clock.old) (W.told draws.old)))
        buffer.new
        (around (X.told link.new) desk.new (outlook (C.told clock.new) (W.told draws.new)))
        result }
    ensures spare { closing false spare.new ≡ no_memory }
    ensures never_fall { NeverFall (X.told link.old) (X.told link.new) }
    ensures cause { HasCause (result ≡ Next.Ends SessionEnd.ReadFault)
        (result ≡ Next.Ends SessionEnd.WriteFault) (X.told link.old) (X.told link.new) }
{
    match next_message(setting.alloc, setting.rules, setting.routes, link, buffer) {
        Ok(None) => Next::Ends(SessionEnd::Ended),
        Ok(Some(incoming)) => answer_message(setting, desk, link, incoming, clock, draws, spare),
        Err(error) => Next::Ends(halt(setting.alloc, link, error)),
    }
}

/// Ends where no message came whole.
fn halt<X: Sink>(alloc: Global, link: &mut X, error: HeadError) -> SessionEnd
    ensures halts { Halts (X.told link.old).held (X.told link.new).held error result }
    ensures read_fault { result ≡ SessionEnd.ReadFault → error ≡ HeadError.ReadFault }
    ensures write_cause { result ≡ SessionEnd.WriteFault
        → WriteFailed (X.told link.old) (X.told link.new) }
    ensures only { OnlyWrites (X.told link.old) (X.told link.new) }
{
    match error {
        HeadError::ReadFault => SessionEnd::ReadFault,
        HeadError::NoMemory => SessionEnd::NoMemory,
        _ => refuse(alloc, link, error),
    }
}

/// Answers a head that is refused, or a message that is cut short.
fn refuse<X: Sink>(alloc: Global, link: &mut X, error: HeadError) -> SessionEnd
    ensures refuses { Refuses (X.told link.old).held (X.told link.new).held error result }
    ensures no_read_fault { result ≢ SessionEnd.ReadFault }
    ensures write_cause { result ≡ SessionEnd.WriteFault
        → WriteFailed (X.told link.old) (X.told link.new) }
    ensures only { OnlyWrites (X.told link.old) (X.told link.new) }
{
    let Ok(room) = Room::new(alloc) else {
        return SessionEnd::NoMemory;
    };
    let mut answered = room.head_refusal(error);
    answered.last = true;
    match write_reply(link, &answered) {
        Ok(()) => SessionEnd::Refused,
        Err(WriteFault) => SessionEnd::WriteFault,
    }
}

/// Answers a message that came whole.
fn answer_message<K: Desk, S: Stacks, X: Sink, C: Clock, W: Draws>(
    setting: &Setting<'_, S>,
    desk: &mut K,
    link: &mut X,
    incoming: Incoming,
    clock: &mut C,
    draws: &mut W,
    spare: &mut Answered,
) -> Next
    requires sized { IsSized incoming }
    requires spare { closing false spare.old ≡ no_memory }
    ensures responds { Responds K.Asks
        (ways setting.now.rules.now (S.stack_of setting.now.stacks.now)) incoming desk.old desk.new
        (outlook (C.told clock.old) (W.told draws.old))
        (outlook (C.told clock.new) (W.told draws.new))
        (X.told link.old).held (X.told link.new).held result }
    ensures spare { closing false spare.new ≡ no_memory }
    ensures no_read_fault { result ≢ Next.Ends SessionEnd.ReadFault }
    ensures write_cause { result ≡ Next.Ends SessionEnd.WriteFault
        → WriteFailed (X.told link.old) (X.told link.new) }
    ensures only { OnlyWrites (X.told link.old) (X.told link.new) }
{
    let Incoming { head, content } = incoming;
    let outcome = answer(setting, desk, content, clock, draws);
    let stopped = outcome.stopped;
    let last = is_last(stopped, head.last);
    match write_last(link, spare, outcome.reply, last) {
        Ok(()) => next_of(stopped, head.last, head.bytes + head.length),
        Err(WriteFault) => Next::Ends(SessionEnd::WriteFault),
    }
}

/// Whether a reply is the last one.
fn is_last(stopped: bool, last: bool) -> bool
    ensures { result ≡ stopped || last }
{
    stopped || last
}

/// How a session goes on behind a reply that was written.
fn next_of(stopped: bool, last: bool, bytes: u64) -> Next
    ensures next { IsNext stopped last bytes result }
    ensures no_read_fault { result ≢ Next.Ends SessionEnd.ReadFault }
    ensures no_write_fault { result ≢ Next.Ends SessionEnd.WriteFault }
{
    if stopped {
        return Next::Ends(SessionEnd::Stopped);
    }
    if last {
        return Next::Ends(SessionEnd::Closed);
    }
    Next::GoesOn(bytes)
}

/// Writes a reply, or the spare one where memory wanted for it, as the last one of the connection or not.
fn write_last<X: Sink>(
    link: &mut X,
    spare: &mut Answered,
    reply: Option<Answered>,
    last: bool,
) -> Result<(), WriteFault>
    requires { closing false spare.old ≡ no_memory }
    ensures written { OnOk result (Writes (X.told link.old) (X.told link.new)
        (reply_text (closing last (reply_of reply)))) }
    ensures front { OnErr result (WritesFront (X.told link.old) (X.told link.new)
        (reply_text (closing last (reply_of reply)))) }
    ensures spare { closing false spare.new ≡ no_memory }
    ensures cause { OnErr result (WriteFailed (X.told link.old) (X.told link.new)) }
{
    match reply {
        Some(answered) => {
            let mut answered = answered;
            answered.last = last;
            write_reply(link, &answered)
        }
        None => {
            spare.last = last;
            write_reply(link, spare)
        }
    }
}
