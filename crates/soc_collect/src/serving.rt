//! One connection served.
ghost use Rattle.std.specs.Prelude.{◌≡◌, ◌<◌, ◌≤◌, ◌+◌, ◌-◌, ◌^◌, [], Bool, false, Some, IfNone, if◌then◌else◌};
ghost use Rattle.soc_edge.specs.Ahead.{outlook};
ghost use Rattle.soc_edge.specs.Calls.{one_more};
ghost use Rattle.soc_edge.specs.Told.{HasCause, NeverFall};
ghost use Rattle.soc_desk.specs.declared.desk.Command.TheVariants.{Fetch};
ghost use Rattle.soc_desk.specs.declared.desk.Receipt.{Receipt};
ghost use Rattle.soc_session.specs.Desk.{ways};
ghost use Rattle.soc_session.specs.Session.{around};
ghost use Rattle.soc_collect.specs.Serving.{ServesOne, Tallied, no_crash};

mod tally;

use crate::shut::Shut;
use crate::watch::Watched;
use soc_desk::{Command, Desk, KeepingDesk};
use soc_edge::{Clock, Draws, Sink, Source};
use soc_http::Buffer;
use soc_listen::{Conn, Waker};
use soc_raw::CrashId;
use soc_session::{SessionEnd, Setting, Stacks, session};
pub use tally::Tally;

/// The id by which a turn looks whether the desk has stopped. No drawn id is this one, since a draw gives version 4.
const NO_CRASH: &str = "00000000-0000-0000-0000-000000000101";

/// Serves one connection: looks in one turn whether the desk has stopped, and where it hasn't answers the connection's
/// messages. Where a receipt said stopped it wakes whoever waits at the connection's listener, once.
pub fn serve_one<K: KeepingDesk, S: Stacks, X: Source + Sink, V: Waker, C: Clock, W: Draws>(
    setting: &Setting<'_, S>,
    desk: &mut K,
    served: &mut Tally<X>,
    conn: Conn<X, V>,
    buffer: &mut Buffer,
    clock: &mut C,
    draws: &mut W,
) -> Shut<X, V>
    requires connections { served.old.connections + 1 < 2 ^ 64 }
    requires kept { served.old.kept < 2 ^ 63 }
    ensures serves { (stopped : Bool)
        × ServesOne K.Asks
        (ways setting.now.rules.now (S.stack_of setting.now.stacks.now))
        (around (X.told conn.link) desk.old (outlook (C.told clock.old) (W.told draws.old)))
        (around (X.told result.conn.link) desk.new (outlook (C.told clock.new) (W.told draws.new)))
        buffer.new result.end stopped
        × Tallied served.old served.new (K.added desk.old) (K.added desk.new) stopped
        × (V.wakes result.conn.waker ≡ (if stopped then one_more (V.wakes conn.waker)
        else V.wakes conn.waker)) }
    ensures never_fall { NeverFall (X.told conn.link) (X.told result.conn.link) }
    ensures unread { IfNone result.end (X.told result.conn.link ≡ X.told conn.link) }
    ensures cause { HasCause (result.end ≡ Some SessionEnd.ReadFault)
        (result.end ≡ Some SessionEnd.WriteFault) (X.told conn.link) (X.told result.conn.link) }
{
    let mut conn = conn;
    buffer.clear();
    let kept = desk.kept();
    let (end, stopped) = attend(setting, desk, &mut conn.link, buffer, clock, draws);
    if stopped {
        conn.waker.wake();
    }
    served.count(desk.kept() - kept, stopped);
    Shut { conn, end }
}

/// Looks in one turn whether the desk has stopped, and where it hasn't answers the connection's messages. Also answers
/// whether a receipt said stopped.
fn attend<K: KeepingDesk, S: Stacks, X: Source + Sink, C: Clock, W: Draws>(
    setting: &Setting<'_, S>,
    desk: &mut K,
    conn: &mut X,
    buffer: &mut Buffer,
    clock: &mut C,
    draws: &mut W,
) -> (Option<SessionEnd>, bool)
    requires { buffer.old ≡ [] }
    ensures serves { ServesOne K.Asks
        (ways setting.now.rules.now (S.stack_of setting.now.stacks.now))
        (around (X.told conn.old) desk.old (outlook (C.told clock.old) (W.told draws.old)))
        (around (X.told conn.new) desk.new (outlook (C.told clock.new) (W.told draws.new)))
        buffer.new result.0 result.1 }
    ensures added { (K.added desk.old ≤ K.added desk.new) × (K.added desk.new < 2 ^ 60) }
    ensures never_fall { NeverFall (X.told conn.old) (X.told conn.new) }
    ensures unread { IfNone result.0 (X.told conn.new ≡ X.told conn.old) }
    ensures cause { HasCause (result.0 ≡ Some SessionEnd.ReadFault)
        (result.0 ≡ Some SessionEnd.WriteFault) (X.told conn.old) (X.told conn.new) }
{
    let mut watched = Watched {
        desk,
        stopped: false,
    };
    let end = answer(setting, &mut watched, conn, buffer, clock, draws);
    (end, watched.stopped)
}

/// The same at a desk that is watched, which tells afterwards whether a receipt said stopped.
fn answer<K: KeepingDesk, S: Stacks, X: Source + Sink, C: Clock, W: Draws>(
    setting: &Setting<'_, S>,
    watched: &mut Watched<'_, K>,
    conn: &mut X,
    buffer: &mut Buffer,
    clock: &mut C,
    draws: &mut W,
) -> Option<SessionEnd>
    requires window { buffer.old ≡ [] }
    requires unstopped { watched.old.stopped ≡ false }
    ensures same_desk { watched.new.desk.ghost_name ≡ watched.old.desk.ghost_name }
    ensures serves { ServesOne K.Asks
        (ways setting.now.rules.now (S.stack_of setting.now.stacks.now))
        (around (X.told conn.old) watched.old.desk.now (outlook (C.told clock.old) (W.told draws.old)))
        (around (X.told conn.new) watched.new.desk.now (outlook (C.told clock.new) (W.told draws.new)))
        buffer.new result watched.new.stopped }
    ensures added { (K.added watched.old.desk.now ≤ K.added watched.new.desk.now)
        × (K.added watched.new.desk.now < 2 ^ 60) }
    ensures never_fall { NeverFall (X.told conn.old) (X.told conn.new) }
    ensures unread { IfNone result (X.told conn.new ≡ X.told conn.old) }
    ensures cause { HasCause (result ≡ Some SessionEnd.ReadFault)
        (result ≡ Some SessionEnd.WriteFault) (X.told conn.old) (X.told conn.new) }
{
    if has_stopped(watched) {
        return None;
    }
    let end = session(setting, watched, conn, buffer, clock, draws);
    Some(end)
}

/// Asks the desk for an id that is never drawn, to see whether it has stopped.
fn has_stopped<K: Desk>(desk: &mut K) -> bool
    ensures { (receipt : Receipt) × K.Asks desk.old (Fetch no_crash) receipt desk.new
        × (result ≡ receipt.stopped) }
{
    desk.ask(Command::Fetch { id: no_crash() }).stopped
}

/// The id that is never drawn.
fn no_crash() -> CrashId
    ensures { result ≡ no_crash }
{
    let Some(id) = CrashId::parse(NO_CRASH) else {
        unreachable!()
    };
    id
}
