//! Connections over the loopback, with a client in the same thread.
use super::SocketLink;
use crate::socket::SocketLimits;
use soc_edge::{Failed, Sink, Source};
use std::io::{self, Read, Write};
use std::net::{Ipv4Addr, Shutdown, SocketAddr, TcpListener, TcpStream};
use std::process::Abort;
use std::test::Fail;
use std::time::{Duration, Instant};

/// The service's limits, but for waits that a test can take.
fn short() -> SocketLimits {
    let wait = Duration::from_millis(50);
    SocketLimits {
        one_read: wait,
        one_write: wait,
        linger: wait,
        ..SocketLimits::of_service()
    }
}

/// A client, and its connection under these limits.
fn connected<'a>(
    rt: &'a HostRuntime,
    limits: SocketLimits,
) -> io::Result<(TcpStream, SocketLink<'a, HostRuntime>)> {
    let listener = TcpListener::bind(rt, SocketAddr::from((Ipv4Addr::LOCALHOST, 0)))?;
    let address = listener.local_addr()?;
    let client = TcpStream::connect(rt, address)?;
    client.set_read_timeout(Some(Duration::from_secs(10)))?;
    let (stream, _) = listener.accept()?;
    Ok((client, SocketLink::new(rt, stream, limits)))
}

#[test]
fn a_connection_is_read_and_written(rt: HostRuntime) -> Result<(), Fail> {
    let (mut client, mut conn) = connected(&rt, SocketLimits::of_service())?;
    let mut into = [0; 8];
    assert_eq!(rt; conn.write(b"abc"), Ok(3));
    assert_eq!(rt; client.read(&mut into)?, 3);
    assert_eq!(rt; &into[..3], b"abc".as_slice());
    assert_eq!(rt; client.write(b"de")?, 2);
    assert_eq!(rt; conn.read(&mut []), Ok(0));
    assert_eq!(rt; conn.read(&mut into), Ok(2));
    assert_eq!(rt; &into[..2], b"de".as_slice());
    client.shutdown(Shutdown::Write)?;
    assert_eq!(rt; conn.read(&mut into), Ok(0));
    assert_eq!(rt; conn.write(b"f"), Ok(1));
    assert_eq!(rt; client.read(&mut into)?, 1);
    Ok(())
}

#[test]
fn a_silent_client_is_not_waited_for(rt: HostRuntime) -> Result<(), Fail> {
    let (mut client, mut conn) = connected(&rt, short())?;
    let mut into = [0; 8];
    assert_eq!(rt; conn.read(&mut into), Err(Failed));
    // An answer that is due still goes out.
    assert_eq!(rt; conn.write(b"abc"), Ok(3));
    assert_eq!(rt; client.read(&mut into)?, 3);
    Ok(())
}

#[test]
fn a_connection_is_not_read_for_ever(rt: HostRuntime) -> Result<(), Fail> {
    let limits = SocketLimits {
        all_reads: Duration::ZERO,
        ..SocketLimits::of_service()
    };
    let (mut client, mut conn) = connected(&rt, limits)?;
    let mut into = [0; 8];
    assert_eq!(rt; client.write(b"abc")?, 3);
    assert_eq!(rt; conn.read(&mut into), Err(Failed));
    assert_eq!(rt; conn.write(b"de"), Ok(2));
    assert_eq!(rt; client.read(&mut into)?, 2);
    Ok(())
}

#[test]
fn a_client_that_does_not_read_is_not_waited_for(rt: HostRuntime) -> Result<(), Fail> {
    let (client, mut conn) = connected(&rt, short())?;
    let bytes = [7; 65_536];
    let mut failed = false;
    for _ in 0..1_000u32 {
        if conn.write(&bytes).is_err() {
            failed = true;
            break;
        }
    }
    assert!(rt; failed);
    drop(client);
    Ok(())
}

#[test]
fn all_writes_together_are_waited_for_so_long(rt: HostRuntime) -> Result<(), Fail> {
    let limits = SocketLimits {
        all_writes: Duration::from_millis(50),
        ..SocketLimits::of_service()
    };
    let (mut client, mut conn) = connected(&rt, limits)?;
    conn.written = Duration::from_millis(40);
    assert_eq!(rt; conn.write(b"abc"), Ok(3));
    conn.written = Duration::from_millis(60);
    assert_eq!(rt; conn.write(b"de"), Err(Failed));
    let mut into = [0; 8];
    assert_eq!(rt; client.read(&mut into)?, 3);
    Ok(())
}

#[test]
fn a_client_that_is_refused_sees_its_answer(rt: HostRuntime) -> Result<(), Fail> {
    let (mut client, mut conn) = connected(&rt, short())?;
    client.write_all(&[7; 50_000])?;
    let mut into = [0; 8];
    assert_eq!(rt; conn.read(&mut into), Ok(8));
    assert_eq!(rt; conn.write(b"413"), Ok(3));
    drop(conn);
    assert_eq!(rt; client.read(&mut into)?, 3);
    assert_eq!(rt; client.read(&mut into)?, 0);
    Ok(())
}

#[test]
fn what_a_client_still_sends_is_not_read_for_ever(rt: HostRuntime) -> Result<(), Fail> {
    let limits = SocketLimits {
        linger_bytes: 1,
        ..SocketLimits::of_service()
    };
    let (mut client, conn) = connected(&rt, limits)?;
    client.write_all(&[7; 50_000])?;
    drop(conn);
    // The connection is gone, which a client sees that goes on.
    assert!(rt; client.write_all(b"x").is_err());
    Ok(())
}

#[test]
fn a_connection_that_failed_is_closed_at_once(rt: HostRuntime) -> Result<(), Fail> {
    let limits = SocketLimits {
        linger: Duration::from_secs(50),
        ..short()
    };
    let (client, mut conn) = connected(&rt, limits)?;
    assert_eq!(rt; conn.read(&mut [0; 8]), Err(Failed));
    let since = Instant::now(&rt)?;
    drop(conn);
    assert!(rt; since.elapsed(&rt)? < Duration::from_secs(10));
    drop(client);
    Ok(())
}
