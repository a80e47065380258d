//! Listeners at addresses of the loopback.
use super::{Address, SocketListener, bind};
use crate::alarm::Alarm;
use crate::socket::SocketLimits;
use soc_edge::Source;
use soc_listen::{Listener, Waker};
use std::io;
use std::net::{Ipv4Addr, SocketAddr, TcpListener, TcpStream};
use std::process::Abort;
use std::test::Fail;

/// A bound port of the loopback.
fn bound(rt: &HostRuntime) -> io::Result<(TcpListener, SocketAddr)> {
    let listener = TcpListener::bind(rt, SocketAddr::from((Ipv4Addr::LOCALHOST, 0)))?;
    let address = listener.local_addr()?;
    Ok((listener, address))
}

/// A free port of the loopback, as the text of an address of that host.
fn free(rt: &HostRuntime, host: &str) -> Result<(String, SocketAddr), Fail> {
    let (_listener, address) = bound(rt)?;
    let port = address.port();
    Ok((format!(in rt.alloc(); "{host}:{port}")?, address))
}

/// Binds an address before its first accept.
fn bind_now(address: &mut Address<'_, HostRuntime>) -> io::Result<()> {
    let socket = bind(address.rt, address.text)?;
    address.bound = Some(socket);
    Ok(())
}

#[test]
fn a_wake_ends_the_listener(rt: HostRuntime) -> Result<(), Fail> {
    for host in ["127.0.0.1", "0.0.0.0"] {
        let alarm = Alarm::new()?;
        let (text, address) = free(&rt, host)?;
        let limits = SocketLimits::of_service();
        let mut listener = SocketListener::new(&rt, text.as_str(), &alarm, limits);
        // It is bound at the first accept, so it has to be there before a client is.
        let other = TcpStream::connect(&rt, address);
        assert!(rt; other.is_err());
        bind_now(&mut listener.address)?;
        let client = TcpStream::connect(&rt, address)?;
        let first = listener.accept();
        let Ok(Some(mut conn)) = first else {
            return Err(Fail::new("no connection"));
        };
        drop(client);
        assert_eq!(rt; conn.link.read(&mut [0; 8]), Ok(0));
        conn.waker.wake();
        let waiting = TcpStream::connect(&rt, address)?;
        for _ in 0..2u32 {
            let next = listener.accept();
            assert!(rt; matches!(&next, Ok(None)));
        }
        drop(waiting);
    }
    Ok(())
}

#[test]
fn an_address_that_is_taken_fails_at_once(rt: HostRuntime) -> Result<(), Fail> {
    let (_other, address) = bound(&rt)?;
    let port = address.port();
    let text = format!(in rt.alloc(); "127.0.0.1:{port}")?;
    let alarm = Alarm::new()?;
    for address in [text.as_str(), "nonsense", "127.0.0.1", ""] {
        let limits = SocketLimits::of_service();
        let accepted = SocketListener::new(&rt, address, &alarm, limits).accept();
        assert!(rt; accepted.is_err());
    }
    Ok(())
}
