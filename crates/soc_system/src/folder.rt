//! A folder of the system as a tree. What its files hold is not told.
use crate::notices::tell;
use soc_base::{Bytes, NoMemory};
use soc_edge::{FaultCount, Tree, TreeError};
use std::alloc::Global;
use std::fs;
use std::io::{self, ErrorKind};
use std::rt::Files;

/// The folder of a path.
#[derive(Drop)]
pub struct Folder<'a, R> {
    rt: &'a R,
    path: &'a str,
    faults: FaultCount,
}

impl<'a, R> Folder<'a, R> {
    /// The folder of a path, which is looked at when a file is asked for.
    pub fn new(rt: &'a R, path: &'a str) -> Self {
        Folder {
            rt,
            path,
            faults: FaultCount::new(),
        }
    }
}

impl<'a, R: Files + Eprint + AllocGlobal> Tree for Folder<'a, R> {
    ghost use Rattle.std.specs.Prelude.{None};

    ghost told = { λ folder. record { files = None; faults = folder.faults.count } };

    /// A name that no file can have, and one below what is no folder, is that of a missing file.
    fn file(&mut self, alloc: Global, name: &str) -> Result<Option<Bytes>, TreeError> {
        let Ok(path) = path_of(alloc, self.path, name) else {
            return Err(TreeError::NoMemory);
        };
        let error = match read_through(self.rt, path.as_str()) {
            Ok(bytes) => {
                let count = bytes.len();
                tell(self.rt, format_args!("socorro: {path}: {count} bytes"));
                return Ok(Some(Bytes::from(bytes)));
            }
            Err(error) => error,
        };
        match error.kind() {
            ErrorKind::NotFound
            | ErrorKind::NotADirectory
            | ErrorKind::InvalidFilename
            | ErrorKind::InvalidInput => {
                tell(self.rt, format_args!("socorro: {path}: missing"));
                Ok(None)
            }
            ErrorKind::OutOfMemory => Err(TreeError::NoMemory),
            _ => {
                tell(self.rt, format_args!("socorro: {path}: {error}"));
                self.faults.fail();
                Err(TreeError::Failed)
            }
        }
    }
}

/// The path of a name in a folder.
fn path_of(alloc: Global, folder: &str, name: &str) -> Result<String, NoMemory> {
    let mut path = String::from_str(alloc, folder)?;
    path.push_str("/")?;
    path.push_str(name)?;
    Ok(path)
}

/// Reads a file, through interruptions.
fn read_through<R: Files + AllocGlobal>(rt: &R, path: &str) -> io::Result<Vec<u8>> {
    for _ in 0..u64::MAX {
        match fs::read(rt, path) {
            Err(error) if error.kind() == ErrorKind::Interrupted => {}
            answer => return answer,
        }
    }
    Err(ErrorKind::Interrupted.into())
}
