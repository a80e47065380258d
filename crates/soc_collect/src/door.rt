//! A listener that threads take turns at.
ghost use Rattle.std.specs.Prelude.{◌≡◌, ◌+◌, ◌<◌, ◌≤◌, ◌^◌, ◌||◌, true, false, IfSome, MatchOption};
ghost use Rattle.soc_edge.specs.Faults.{Rose};
ghost use Rattle.soc_collect.specs.Doors.{GivesConn, GivesNone};
ghost use Rattle.soc_collect.specs.inner.Rises.{has_risen};

use crate::ticket::Ticket;
use soc_edge::Failed;
use soc_listen::{Conn, Listener};
use std::marker::{Brand, PhantomData};
use std::sync::ledger::{Blank, Book, Ledger};

/// From what its listener told a door counts. A lock gives back no more than its type tells, so the type names it. Each call
/// of a program picks it.
pub trait Naming {
    ghost use Rattle.soc_listen.specs.Told.{ListenerTold};

    // What the listener told when its door was opened.
    ghost opened: { ListenerTold };
}

impl Naming for Brand {
    ghost use Rattle.std.specs.Prelude.{false, None};

    ghost opened = { record { handed = 0; ended = false; left = None; faults = 0 } };
}

/// A listener, whether it has failed since the door was opened, and the counts of what threads were given: the connections that
/// were handed out, and how often none was.
#[derive(Drop)]
pub struct Door<L: Listener, N: Ledger, M: Ledger, J: Naming> {
    listener: L,
    failed: bool,
    handed: Book<N>,
    refused: Book<M>,
    of: PhantomData<J>,
    ghost no_fewer: { J.opened.faults ≤ (L.told listener).faults },
    ghost rose: { failed ≡ true → has_risen J.opened.faults (L.told listener).faults ≡ true },
    ghost counted: { (L.told listener).handed ≡ J.opened.handed + handed.total },
    ghost refuses: { 0 < refused.total → (failed || (L.told listener).ended) ≡ true },
    ghost short: { handed.total < 2 ^ 64 },
}

impl<L: Listener, N: Ledger, M: Ledger, J: Naming> Door<L, N, M, J> {
    /// The door of a listener, and the ticket that has all parts of its counts.
    pub fn open(listener: L, handed: Blank, refused: Blank) -> (Door<L, N, M, J>, Ticket<N, M>)
        requires listener { L.told listener ≡ J.opened }
        requires handed { (handed.name ≡ N.name) × (handed.parts ≡ N.parts) }
        requires refused { (refused.name ≡ M.name) × (refused.parts ≡ M.parts) }
        ensures parts { (result.1.handed.parts ≡ N.parts) × (result.1.refused.parts ≡ M.parts) }
        ensures unused { (result.1.handed.amount ≡ 0) × (result.1.refused.amount ≡ 0) }
        ensures failed { result.0.failed ≡ false }
    {
        let (handed, all_handed) = handed.open::<N>();
        let (refused, all_refused) = refused.open::<M>();
        let door = Door {
            listener,
            failed: false,
            handed,
            refused,
            of: PhantomData,
        };
        let ticket = Ticket {
            handed: all_handed,
            refused: all_refused,
        };
        (door, ticket)
    }

    /// The next connection, which is counted on the ticket. `None` where no further one comes, and where the listener
    /// fails, and this is counted too.
    #[tactic(auto, using(crate::proofs::Rises::risen))]
    pub fn accept(&mut self, mine: &mut Ticket<N, M>) -> Option<Conn<L::Link, L::Waker>>
        requires { (0 < mine.old.handed.parts) × (0 < mine.old.refused.parts) }
        ensures gives { MatchOption result
            (GivesNone (L.told self.old.listener) (L.told self.new.listener) self.old.failed self.new.failed)
            (λ conn. GivesConn (L.told self.old.listener)
            (L.told self.new.listener) self.old.failed self.new.failed (L.Link.told conn.link)) }
        ensures counts { MatchOption result
            ((mine.new.handed.amount ≡ mine.old.handed.amount)
            × (mine.new.refused.amount ≡ mine.old.refused.amount + 1))
            (λ _. (mine.new.handed.amount ≡ mine.old.handed.amount + 1)
            × (mine.new.refused.amount ≡ mine.old.refused.amount)) }
        ensures parts { (mine.new.handed.parts ≡ mine.old.handed.parts)
            × (mine.new.refused.parts ≡ mine.old.refused.parts) }
        ensures room { IfSome result (λ _. mine.new.handed.amount < 2 ^ 64) }
    {
        match self.listener.accept() {
            Ok(Some(conn)) => {
                self.handed.add(&mut mine.handed, 1);
                self.handed.audit(&mut mine.handed);
                Some(conn)
            }
            Ok(None) => {
                self.refused.add(&mut mine.refused, 1);
                None
            }
            Err(Failed) => {
                self.failed = true;
                self.refused.add(&mut mine.refused, 1);
                None
            }
        }
    }

    /// Changes nothing: a ticket counts no more connections than the listener handed out.
    pub fn confirm(&mut self, ticket: &mut Ticket<N, M>)
        ensures amounts { (ticket.new.handed.amount ≡ ticket.old.handed.amount)
            × (ticket.new.refused.amount ≡ ticket.old.refused.amount) }
        ensures parts { (ticket.new.handed.parts ≡ ticket.old.handed.parts)
            × (ticket.new.refused.parts ≡ ticket.old.refused.parts) }
        ensures short { ticket.new.handed.amount < 2 ^ 64 }
    {
        self.handed.audit(&mut ticket.handed);
    }

    /// Gives the listener back, and says whether it has failed since the door was made. All that was counted is on the
    /// ticket that has all parts.
    #[tactic(auto, using(crate::proofs::Rises::rose_of))]
    pub fn close(mut self, all: &mut Ticket<N, M>) -> (L, bool)
        requires handed { all.old.handed.parts ≡ N.parts }
        requires refused { all.old.refused.parts ≡ M.parts }
        ensures listener { result.0 ≡ self.listener }
        ensures failed { result.1 ≡ self.failed }
        ensures no_fewer { J.opened.faults ≤ (L.told result.0).faults }
        ensures rose { result.1 ≡ true → Rose J.opened.faults (L.told result.0).faults }
        ensures handed { (L.told result.0).handed ≡ J.opened.handed + all.old.handed.amount }
        ensures over { 0 < all.old.refused.amount → (result.1 || (L.told result.0).ended) ≡ true }
    {
        self.handed.audit(&mut all.handed);
        self.refused.audit(&mut all.refused);
        (self.listener, self.failed)
    }
}
