//! Accepting connections in spite of errors that pass.
#[cfg(test)]
mod tests;

use crate::alarm::Alarm;
use crate::notices::Faults;
use libc::{EBADF, EINVAL, ENOTSOCK};
use std::io::{self, ErrorKind};
use std::net::OpenListener;
use std::os::fd::AsRawFd;
use std::time::{Clock, Duration};

/// Accepts a connection at a listener that doesn't wait by itself. After an error it pauses and tries again, until one
/// comes or the alarm is raised, where it gives none. It fails only where the socket itself is lost.
pub(crate) fn accept_through<R: Eprint + Clock, L: OpenListener + AsRawFd>(
    rt: &R,
    listener: &L,
    alarm: &Alarm,
    pause: Duration,
    passing: &mut Faults,
) -> io::Result<Option<L::Stream>> {
    for _ in 0..u64::MAX {
        if alarm.is_raised_before(listener.as_raw_fd()) {
            return Ok(None);
        }
        match listener.accept() {
            Ok((stream, _)) => return Ok(Some(stream)),
            Err(error) if error.kind() == ErrorKind::WouldBlock => {}
            Err(error) if is_lost(&error) => return Err(error),
            Err(error) => {
                passing.note(rt, "connections", &error);
                if alarm.is_raised_within(pause) {
                    return Ok(None);
                }
            }
        }
    }
    Err(ErrorKind::TimedOut.into())
}

/// Whether the socket is none any more, so that no later accept can succeed.
fn is_lost(error: &io::Error) -> bool {
    matches!(error.raw_os_error(), Some(EBADF | EINVAL | ENOTSOCK))
}
