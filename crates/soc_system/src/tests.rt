//! Each adapter, tried once.
use crate::clock::SystemClock;
use crate::draws::SystemDraws;
use crate::folder::Folder;
use crate::streams::{InputStream, OutputStream};
use soc_base::Bytes;
use soc_edge::{Clock, Draws, Failed, Sink, Source, Tree, TreeError};
use std::fs;
use std::io::{self, Read};
use std::process::Abort;
use std::test::Fail;

/// A reader that only fails.
#[derive(Drop)]
struct Broken;

impl Read for Broken {
    fn read(&mut self, _into: &mut [u8]) -> io::Result<usize> {
        Err(io::ErrorKind::Other.into())
    }
}

#[test]
fn a_reader_is_read_to_its_end(rt: HostRuntime) {
    let mut input = InputStream::new(b"abc".as_slice());
    let mut into = [0; 2];
    assert_eq!(rt; input.read(&mut into), Ok(2));
    assert_eq!(rt; into.as_slice(), b"ab".as_slice());
    assert_eq!(rt; input.read(&mut into), Ok(1));
    assert_eq!(rt; input.read(&mut into), Ok(0));
    assert_eq!(rt; InputStream::new(Broken).read(&mut into), Err(Failed));
}

#[test]
fn a_writer_that_is_full_fails(rt: HostRuntime) {
    let mut room = [0; 3];
    let mut output = OutputStream::new(&mut room[..]);
    assert_eq!(rt; output.write(b"ab"), Ok(2));
    assert_eq!(rt; output.write(b"cd"), Ok(1));
    assert_eq!(rt; output.write(b"d"), Err(Failed));
    drop(output);
    assert_eq!(rt; room.as_slice(), b"abc".as_slice());
}

#[test]
fn the_clock_shows_a_moment_between_its_ends(rt: HostRuntime) {
    let moment = SystemClock::new(&rt).now();
    assert!(rt; moment > 946_684_800);
    assert!(rt; moment < 4_102_444_799);
}

#[test]
fn draws_differ(rt: HostRuntime) -> Result<(), Fail> {
    let mut draws = SystemDraws::new(&rt)?;
    let (first, second) = (draws.id(), draws.id());
    assert!(rt; first.as_slice() != second.as_slice());
    let (first, second) = (draws.throttle(), draws.throttle());
    assert!(rt; first != second);
    Ok(())
}

/// What a folder has under a name.
fn look(rt: &HostRuntime, folder: &str, name: &str) -> Result<Option<Bytes>, TreeError> {
    Folder::new(rt, folder).file(rt.alloc(), name)
}

#[test]
fn a_folder_gives_its_files(rt: HostRuntime) -> Result<(), Fail> {
    let name = "folder_test.toml";
    fs::write(&rt, name, "crashes = 1")?;
    let file = look(&rt, ".", name)?;
    let below = look(&rt, ".", "folder_test.toml/tokens.toml")?;
    let refused = look(&rt, ".", ".");
    fs::remove_file(&rt, name)?;
    assert!(rt; file.is_some_and(|bytes| bytes.as_slice() == b"crashes = 1".as_slice()));
    assert!(rt; below.is_none());
    assert!(rt; matches!(&refused, Err(TreeError::Failed)));
    Ok(())
}

#[test]
fn what_is_not_there_is_missing(rt: HostRuntime) -> Result<(), Fail> {
    let long = "folder_test".repeat(rt.alloc(), 30)?;
    assert!(rt; look(&rt, ".", long.as_str())?.is_none());
    assert!(rt; look(&rt, ".", "missing_test.toml")?.is_none());
    assert!(rt; look(&rt, ".", "a\0b")?.is_none());
    assert!(rt; look(&rt, "no_folder", "missing_test.toml")?.is_none());
    Ok(())
}
