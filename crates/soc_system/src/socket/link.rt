//! What is read and written of a connection over TCP.
ghost use Rattle.std.specs.Prelude.{◌≤◌, ◌<◌, length, IfOk};

#[cfg(test)]
mod tests;

use super::SocketLimits;
use soc_edge::{Failed, FaultCount, Sink, Source, Tells};
use std::io::{self, ErrorKind, Read, Write};
use std::net::{Shutdown, TcpStream};
use std::time::{Clock, Duration, Instant};

/// How many bytes are read at once of what a client still sends at the end.
const CHUNK: usize = 16_384;

/// An accepted connection's bytes. Where its client is still there as it is dropped, the client sees an end and no reset: the
/// writing half is shut down, and what still comes is read for a while.
pub struct SocketLink<'a, R: Clock> {
    rt: &'a R,
    stream: TcpStream,
    limits: SocketLimits,
    /// When it was accepted, where the clock could be read.
    since: Option<Instant>,
    /// How long its writes have taken so far.
    written: Duration,
    /// Whether no end of input was seen and no read or write failed.
    is_open: bool,
    read_faults: FaultCount,
    write_faults: FaultCount,
}

impl<'a, R: Clock> SocketLink<'a, R> {
    /// A connection that was accepted now.
    pub fn new(rt: &'a R, stream: TcpStream, limits: SocketLimits) -> Self {
        // A small reply needn't wait for another. Where this can't be set, it may wait.
        let _may_wait = stream.set_nodelay(true);
        SocketLink {
            rt,
            stream,
            limits,
            since: Instant::now(rt).ok(),
            written: Duration::ZERO,
            is_open: true,
            read_faults: FaultCount::new(),
            write_faults: FaultCount::new(),
        }
    }
}

impl<'a, R: Clock> Drop for SocketLink<'a, R> {
    fn drop(self) {
        let SocketLink {
            rt,
            mut stream,
            limits,
            since: _,
            written: _,
            is_open,
            read_faults: _,
            write_faults: _,
        } = self;
        if is_open {
            let _is_done = read_out(rt, &mut stream, &limits);
        }
    }
}

impl<'a, R: Clock> Tells for SocketLink<'a, R> {
    ghost use Rattle.soc_edge.specs.Told.{untold};

    ghost told = { λ conn. record untold
        { read_faults = conn.read_faults.count; write_faults = conn.write_faults.count } };
}

impl<'a, R: Clock> Source for SocketLink<'a, R> {
    /// Fails where it waits too long, and always once the connection has been read for too long.
    fn read(&mut self, into: &mut [u8]) -> Result<usize, Failed> {
        match receive(self.rt, &mut self.stream, into, self.since, &self.limits) {
            Ok(count) => {
                self.is_open = self.is_open && (count > 0 || into.is_empty());
                Ok(count)
            }
            Err(_) => {
                self.is_open = false;
                Err(self.read_faults.fail())
            }
        }
    }
}

impl<'a, R: Clock> Sink for SocketLink<'a, R> {
    /// Fails where it takes too long, also where some bytes were taken, and where all writes together do.
    fn write(&mut self, bytes: &[u8]) -> Result<usize, Failed> {
        let SocketLink {
            rt,
            stream,
            limits,
            written,
            ..
        } = self;
        match send_in_time(*rt, stream, bytes, limits, written) {
            Ok(count) => Ok(count),
            Err(_) => {
                self.is_open = false;
                Err(self.write_faults.fail())
            }
        }
    }
}

/// Reads some bytes, and waits for them no longer than the limits say.
fn receive<R: Clock>(
    rt: &R,
    stream: &mut TcpStream,
    into: &mut [u8],
    since: Option<Instant>,
    limits: &SocketLimits,
) -> io::Result<usize>
    ensures { IfOk result (λ count. count ≤ length into.new) }
{
    let Some(since) = since else {
        return Err(ErrorKind::Other.into());
    };
    for _ in 0..u64::MAX {
        let left = left_of(rt, limits.all_reads, since)?;
        match read_within(stream, into, left.min(limits.one_read)) {
            Err(error) if error.kind() == ErrorKind::Interrupted => {}
            answer => return answer,
        }
    }
    Err(ErrorKind::Interrupted.into())
}

/// Writes some bytes, at least one where there is one, and takes no longer than the limits leave it after what earlier
/// writes have taken.
fn send_in_time<R: Clock>(
    rt: &R,
    stream: &mut TcpStream,
    bytes: &[u8],
    limits: &SocketLimits,
    written: &mut Duration,
) -> io::Result<usize>
    ensures count { IfOk result (λ count. count ≤ length bytes.now) }
    ensures some { IfOk result (λ count. 0 < length bytes.now → 0 < count) }
{
    let since = Instant::now(rt)?;
    let left = limits.all_writes.saturating_sub(*written);
    let answer = send(rt, stream, bytes, left.min(limits.one_write));
    *written = written.saturating_add(since.elapsed(rt)?);
    answer
}

/// Writes some bytes, at least one where there is one, and takes no longer than the limit.
fn send<R: Clock>(
    rt: &R,
    stream: &mut TcpStream,
    bytes: &[u8],
    limit: Duration,
) -> io::Result<usize>
    ensures count { IfOk result (λ count. count ≤ length bytes.now) }
    ensures some { IfOk result (λ count. 0 < length bytes.now → 0 < count) }
{
    let since = Instant::now(rt)?;
    for _ in 0..u64::MAX {
        let left = left_of(rt, limit, since)?;
        stream.set_write_timeout(Some(left))?;
        match stream.write(bytes) {
            Ok(count) if count == bytes.len() => return Ok(count),
            Ok(0) => return Err(ErrorKind::WriteZero.into()),
            Ok(count) => {
                left_of(rt, limit, since)?;
                return Ok(count);
            }
            Err(error) if error.kind() == ErrorKind::Interrupted => {}
            Err(error) => return Err(error),
        }
    }
    Err(ErrorKind::Interrupted.into())
}

/// Shuts the writing half down, and reads what still comes until the client has ended too or a limit is reached.
fn read_out<R: Clock>(rt: &R, stream: &mut TcpStream, limits: &SocketLimits) -> io::Result<()> {
    let since = Instant::now(rt)?;
    stream.shutdown(Shutdown::Write)?;
    let mut into = [0; CHUNK];
    let mut count: u64 = 0;
    for _ in 0..u64::MAX {
        if count >= limits.linger_bytes {
            break;
        }
        let left = left_of(rt, limits.linger, since)?;
        match read_within(stream, &mut into, left) {
            Ok(0) => break,
            Ok(more) => count = count.saturating_add(more as u64),
            Err(error) if error.kind() == ErrorKind::Interrupted => {}
            Err(error) => return Err(error),
        }
    }
    Ok(())
}

/// Reads some bytes, and waits for them no longer than that.
fn read_within(stream: &mut TcpStream, into: &mut [u8], wait: Duration) -> io::Result<usize>
    ensures { IfOk result (λ count. count ≤ length into.new) }
{
    stream.set_read_timeout(Some(wait))?;
    stream.read(into)
}

/// What is left of a time that began then. That none is left is an error.
fn left_of<R: Clock>(rt: &R, limit: Duration, since: Instant) -> io::Result<Duration> {
    let left = limit.saturating_sub(since.elapsed(rt)?);
    if left.is_zero() {
        return Err(ErrorKind::TimedOut.into());
    }
    Ok(left)
}
