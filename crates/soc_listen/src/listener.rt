//! Where connections come from.
ghost use Rattle.std.specs.Prelude.{◌≡◌, true, OnErr, IfOk, MatchOption};
ghost use Rattle.soc_listen.specs.Told.{ListenerTold, HandsOver, Ends, AcceptFailed, NoneLeft};

use crate::{Conn, Waker};
use soc_edge::{Failed, Sink, Source};

/// Hands out connections, one after another.
pub trait Listener: Send {
    /// What is read and written of a connection, each direction with a count of faults of its own.
    type Link: Source + Sink + Drop + Send;

    /// What wakes whoever waits here.
    type Waker: Waker + Drop + Send;

    /// How many connections it has handed out, whether it has ended, those that it has left where it tells them, and how
    /// often a call has failed.
    ghost told: { Self → ListenerTold };

    /// The next connection. `None` means that no further one comes: it has ended then, and from then on only `None`
    /// comes. After `Failed` it may be asked again.
    fn accept(&mut self) -> Result<Option<Conn<Self::Link, Self::Waker>>, Failed>
        ensures gives { IfOk result (λ conn. MatchOption conn
            (Ends (told self.old) (told self.new))
            (λ c. HandsOver (told self.old) (told self.new) (Self.Link.told c.link))) }
        ensures fails { OnErr result (AcceptFailed (told self.old) (told self.new)) };

    /// Once it has ended it has no connection left.
    ghost spent: { (listener : Self) → (told listener).ended ≡ true → NoneLeft (told listener) };
}

/// A listener that is lent hands out the same connections.
impl<L: Listener> Listener for &mut L {
    type Link = L::Link;

    type Waker = L::Waker;

    ghost told = { λ l. L.told l.now };

    ghost spent = { λ l. L.spent l.now };

    fn accept(&mut self) -> Result<Option<Conn<L::Link, L::Waker>>, Failed> {
        (**self).accept()
    }
}
