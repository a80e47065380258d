//! An address of the system as a listener.
#[cfg(test)]
mod tests;

use super::SocketLimits;
use super::accepting::accept_through;
use super::link::SocketLink;
use super::waker::SocketWaker;
use crate::alarm::Alarm;
use crate::notices::{Faults, tell};
use soc_edge::{Failed, FaultCount};
use soc_listen::{Conn, Listener};
use std::io;
use std::net::{Net, TcpListener, TcpStream};
use std::time::Clock;

/// A connection over TCP.
type SocketConn<'a, R> = Conn<SocketLink<'a, R>, SocketWaker<'a>>;

/// An address that is bound at the first accept. Where that can't be done the accept fails, and the next one tries again.
/// It ends once the alarm is raised.
#[derive(Drop)]
pub struct SocketListener<'a, R: Net> {
    address: Address<'a, R>,
    handed: u64,
    has_ended: bool,
    faults: FaultCount,
}

impl<'a, R: Net<Listener = TcpListener, Stream = TcpStream> + Clock + Eprint + Sync> SocketListener<
    'a,
    R,
> {
    /// A listener at an address, such as `127.0.0.1:8000`, which isn't bound yet.
    pub fn new(rt: &'a R, address: &'a str, alarm: &'a Alarm, limits: SocketLimits) -> Self {
        SocketListener {
            address: Address::new(rt, address, alarm, limits),
            handed: 0,
            has_ended: false,
            faults: FaultCount::new(),
        }
    }
}

impl<'a, R: Net<Listener = TcpListener, Stream = TcpStream> + Clock + Eprint + Sync> Listener
    for SocketListener<'a, R> {
    ghost use Rattle.std.specs.Prelude.{None};

    type Link = SocketLink<'a, R>;

    type Waker = SocketWaker<'a>;

    ghost told = { λ l. record {
      handed = l.handed;
      ended = l.has_ended;
      left = None;
      faults =
          l.faults.count;
    } };

    ghost spent = { λ _ _. tt };

    fn accept(&mut self) -> Result<Option<SocketConn<'a, R>>, Failed> {
        if self.has_ended || self.handed == u64::MAX {
            self.has_ended = true;
            return Ok(None);
        }
        match self.address.accept() {
            Ok(Some(stream)) => {
                self.handed += 1;
                Ok(Some(self.address.connection(stream)))
            }
            Ok(None) => {
                self.has_ended = true;
                Ok(None)
            }
            Err(_) => Err(self.faults.fail()),
        }
    }
}

/// An IP address or a host's name, and a port, bound or not yet.
#[derive(Drop)]
struct Address<'a, R: Net> {
    rt: &'a R,
    text: &'a str,
    alarm: &'a Alarm,
    limits: SocketLimits,
    bound: Option<TcpListener>,
    /// Errors of accepts that are tried again, and the others.
    passing: Faults,
    lasting: Faults,
}

impl<'a, R: Net<Listener = TcpListener, Stream = TcpStream> + Clock + Eprint> Address<'a, R> {
    fn new(rt: &'a R, text: &'a str, alarm: &'a Alarm, limits: SocketLimits) -> Self {
        Address {
            rt,
            text,
            alarm,
            limits,
            bound: None,
            passing: Faults::new(
                "no connection can be accepted",
                "this is tried again; a higher LimitNOFILE or more memory may help",
            ),
            lasting: Faults::new("the address can't be used", "the service ends"),
        }
    }

    /// The next client, none once the alarm is raised.
    fn accept(&mut self) -> io::Result<Option<TcpStream>> {
        let answer = self.accept_bound();
        self.lasting.noted(self.rt, self.text, answer)
    }

    fn accept_bound(&mut self) -> io::Result<Option<TcpStream>> {
        let socket = match self.bound.take() {
            Some(socket) => socket,
            None => bind(self.rt, self.text)?,
        };
        let pause = self.limits.pause;
        let answer = accept_through(self.rt, &socket, self.alarm, pause, &mut self.passing);
        self.bound = Some(socket);
        answer
    }

    /// A connection that was accepted now.
    fn connection(&self, stream: TcpStream) -> SocketConn<'a, R> {
        Conn {
            link: SocketLink::new(self.rt, stream, self.limits),
            waker: SocketWaker::new(self.alarm),
        }
    }
}

/// Binds an address so that accepts there don't wait.
fn bind<R: Net<Listener = TcpListener, Stream = TcpStream> + Eprint>(
    rt: &R,
    address: &str,
) -> io::Result<TcpListener> {
    let socket = TcpListener::bind(rt, address)?;
    socket.set_nonblocking(true)?;
    let bound = socket.local_addr()?;
    tell(rt, format_args!("socorro: listening at {bound}"));
    Ok(socket)
}
