//! Accepts that fail, over a listener that isn't the system's.
use super::accept_through;
use crate::alarm::Alarm;
use crate::notices::Faults;
use libc::EMFILE;
use std::cell::Cell;
use std::io;
use std::net::{Ipv4Addr, OpenListener, SocketAddr};
use std::os::fd::{AsRawFd, RawFd};
use std::process::Abort;
use std::test::Fail;
use std::time::Duration;

/// A listener that fails so often, and then hands out nothing as a connection. Its descriptor can be read at once: the
/// system reports so of one that is none.
#[derive(Drop)]
struct Failing {
    error: i32,
    left: Cell<u32>,
}

impl OpenListener for Failing {
    type Stream = ();

    fn accept(&self) -> io::Result<((), SocketAddr)> {
        let left = self.left.get();
        if left == 0 {
            return Ok(((), SocketAddr::from((Ipv4Addr::LOCALHOST, 0))));
        }
        self.left.set(left - 1);
        Err(io::Error::from_raw_os_error(self.error))
    }
}

impl AsRawFd for Failing {
    fn as_raw_fd(&self) -> RawFd {
        i32::MAX
    }
}

/// Accepts at a listener that fails so often.
fn accept(rt: &HostRuntime, alarm: &Alarm, error: i32, failures: u32) -> io::Result<Option<()>> {
    let listener = Failing {
        error,
        left: Cell::new(failures),
    };
    let mut faults = Faults::new("no connection can be accepted", "this is a test");
    accept_through(rt, &listener, alarm, Duration::from_millis(1), &mut faults)
}

#[test]
fn an_accept_outlasts_errors_that_pass(rt: HostRuntime) -> Result<(), Fail> {
    let alarm = Alarm::new()?;
    assert_eq!(rt; accept(&rt, &alarm, EMFILE, 0)?, Some(()));
    assert_eq!(rt; accept(&rt, &alarm, EMFILE, 300)?, Some(()));
    alarm.raise();
    assert_eq!(rt; accept(&rt, &alarm, EMFILE, 0)?, None);
    Ok(())
}

#[test]
fn only_a_lost_socket_ends_it(rt: HostRuntime) -> Result<(), Fail> {
    let alarm = Alarm::new()?;
    // The connection's own, want of descriptors or memory, the network's, and one that no manual names.
    for error in [
        1, 11, 12, 23, 24, 64, 71, 92, 95, 100, 101, 103, 105, 110, 112, 113, 133,
    ] {
        assert!(rt; accept(&rt, &alarm, error, 1).is_ok(), "{error}");
    }
    for error in [9, 22, 88] {
        assert!(rt; accept(&rt, &alarm, error, 1).is_err(), "{error}");
    }
    Ok(())
}
