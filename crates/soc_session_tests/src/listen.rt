//! Worked rows: connections in memory, one after another.
ghost use Rattle.std.specs.Prelude.{◌≡◌, IfOk};

use crate::expect::{holds, same};
use soc_base::{Bytes, NoMemory};
use soc_edge::{BytesList, Failed, Numbers, Sink, Source};
use soc_listen::{Listener, MemListener, Waker};
use std::alloc::Global;
use std::test::Fail;
use std::thread;

// A listener of these two scripts, whose calls with these numbers fail.
fn two(alloc: Global, fails: &[u64]) -> Result<MemListener, NoMemory> {
    let mut scripts = Vec::new(alloc);
    scripts.push(Bytes::of(alloc, b"first")?)?;
    scripts.push(Bytes::of(alloc, b"second")?)?;
    let fails = Numbers::new(fails.to_vec(alloc)?);
    MemListener::new(alloc, BytesList::new(scripts), 4, fails)
}

// How a call of `accept` went: the bytes that the connection begins with, as many as there is room for.
fn begins<L: Listener>(listener: &mut L, into: &mut [u8]) -> Result<Option<usize>, Failed> {
    match listener.accept()? {
        Some(mut conn) => Ok(Some(conn.link.read(into)?)),
        None => Ok(None),
    }
}

#[test]
fn each_connection_comes_once(rt: HostRuntime) -> Result<(), Fail> {
    let mut listener = two(rt.alloc(), &[])?;
    let mut into = [0; 6];
    same(&rt, begins(&mut listener, &mut into), Ok(Some(5)));
    same(&rt, &into[..5], b"first".as_slice());
    same(&rt, begins(&mut listener, &mut into), Ok(Some(6)));
    same(&rt, into.as_slice(), b"second".as_slice());
    same(&rt, begins(&mut listener, &mut into), Ok(None));
    same(&rt, begins(&mut listener, &mut into), Ok(None));
    Ok(())
}

#[test]
fn calls_fail_at_their_numbers_until_the_end(rt: HostRuntime) -> Result<(), Fail> {
    let mut listener = two(rt.alloc(), &[0, 2, 5])?;
    let mut into = [0; 6];
    same(&rt, begins(&mut listener, &mut into), Err(Failed));
    same(&rt, begins(&mut listener, &mut into), Ok(Some(5)));
    same(&rt, begins(&mut listener, &mut into), Err(Failed));
    same(&rt, begins(&mut listener, &mut into), Ok(Some(6)));
    same(&rt, begins(&mut listener, &mut into), Ok(None));
    same(&rt, begins(&mut listener, &mut into), Ok(None));
    Ok(())
}

#[test]
fn what_was_written_is_read_back(rt: HostRuntime) -> Result<(), Fail> {
    let mut listener = two(rt.alloc(), &[])?;
    let Ok(Some(mut first)) = listener.accept() else {
        return Err(Fail::from("no connection"));
    };
    same(&rt, first.link.write(b"abcdef"), Ok(4));
    same(&rt, first.link.write(b"ef"), Err(Failed));
    first.waker.wake();
    holds(&rt, listener.written(0).is_none());
    thread::join(&rt, move || drop(first), || {});
    same(&rt, listener.written(0), Some(b"abcd".as_slice()));
    holds(&rt, listener.written(1).is_none());
    holds(&rt, listener.written(2).is_none());
    Ok(())
}
