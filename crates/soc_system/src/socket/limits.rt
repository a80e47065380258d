//! How long sockets are waited for.
use std::time::Duration;

/// How long a socket's calls may wait, and how much of what a client still sends is read at the end.
#[derive(Clone, Copy, Debug)]
pub struct SocketLimits {
    /// The longest wait of one read.
    pub one_read: Duration,
    /// The time after its accept from which a connection isn't read any longer.
    pub all_reads: Duration,
    /// The longest time that one write may take.
    pub one_write: Duration,
    /// The longest time that all writes of a connection may take together.
    pub all_writes: Duration,
    /// The longest time in which a connection that is closed is read to its end.
    pub linger: Duration,
    /// The most bytes that are read then.
    pub linger_bytes: u64,
    /// The pause before a failed accept is tried again.
    pub pause: Duration,
}

impl SocketLimits {
    /// Those of the service.
    pub fn of_service() -> SocketLimits {
        SocketLimits {
            one_read: Duration::from_secs(10),
            all_reads: Duration::from_secs(300),
            one_write: Duration::from_secs(30),
            all_writes: Duration::from_secs(60),
            linger: Duration::from_secs(2),
            linger_bytes: 16 << 20,
            pause: Duration::from_millis(50),
        }
    }
}
