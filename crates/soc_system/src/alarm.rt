//! What ends the service from within: an alarm that whoever accepts connections waits for too.
#[cfg(test)]
mod tests;

use libc::net::{EFD_CLOEXEC, EFD_NONBLOCK, POLLIN, eventfd, poll};
use libc::types::pollfd;
use std::io::{self, ErrorKind};
use std::os::fd::RawFd;
use std::time::Duration;

/// A counter of the system by which one thread ends the waits of another. Once it is raised it stays so.
pub struct Alarm {
    descriptor: RawFd,
}

impl Alarm {
    /// An alarm that isn't raised.
    pub fn new() -> io::Result<Alarm> {
        let descriptor = eventfd(0, EFD_CLOEXEC | EFD_NONBLOCK);
        if descriptor < 0 {
            return Err(ErrorKind::Other.into());
        }
        Ok(Alarm { descriptor })
    }

    /// An alarm that nobody hears.
    pub fn unheard() -> Alarm {
        Alarm { descriptor: -1 }
    }

    /// Ends each wait from now on.
    pub fn raise(&self) {
        libc::write(self.descriptor, &1u64.to_ne_bytes());
    }

    /// Waits until it is raised, at most for so long. Whether it is raised.
    pub fn is_raised_within(&self, limit: Duration) -> bool {
        let limit = i32::try_from(limit.as_millis()).unwrap_or(i32::MAX);
        let mut watched = [readable(self.descriptor)];
        poll(&mut watched, limit);
        is_ready(&watched[0])
    }

    /// Waits until it is raised or the descriptor can be read. Whether it is raised.
    pub fn is_raised_before(&self, descriptor: RawFd) -> bool {
        let mut watched = [readable(self.descriptor), readable(descriptor)];
        poll(&mut watched, -1);
        is_ready(&watched[0])
    }
}

impl Drop for Alarm {
    fn drop(self) {
        let Alarm { descriptor } = self;
        libc::close(descriptor);
    }
}

/// What is asked of a descriptor: whether it can be read.
fn readable(descriptor: RawFd) -> pollfd {
    pollfd {
        fd: descriptor,
        events: POLLIN,
        revents: 0,
    }
}

fn is_ready(watched: &pollfd) -> bool {
    watched.revents != 0
}
