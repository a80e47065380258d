//! A regular file that is locked for one process.
//!
//! The system's library has all that this asks of it: reads and writes at an offset, a lock on the whole file that the
//! process gives up as it ends, and the two syncs; the C library's declarations have the advice to drop cached pages,
//! which is no promise. So where a sync of an earlier process had failed and the pages stay cached all the same, this one
//! reads what isn't on the disk.
ghost use Rattle.std.specs.Prelude.{◌≤◌, ◌↔◌, length, IfOk, IsErr, IsTrue};

#[cfg(test)]
mod tests;

use crate::notices::tell;
use std::fs::{File, OpenOptions, Permissions, TryLockError};
use std::io::{self, ErrorKind};
use std::os::fd::AsRawFd;
use std::os::unix::fs::{FileExt, OpenOptionsExt, PermissionsExt};
use std::path::Path;
use std::rt::Files;

/// The mode of a file that is made: nobody else reads or writes it.
const PRIVATE: u32 = 0o600;

/// The rights of others than its user.
const OTHERS: u32 = 0o077;

/// A locked file. Once a sync has failed, each later one fails too: the system may count pages as written that it could
/// not write, and then a later sync succeeds without them.
#[derive(Drop)]
pub(crate) struct FileDisk {
    file: File,
    has_lost: bool,
}

impl FileDisk {
    /// Opens a regular file, or makes an empty one that nobody else may read, and locks it, so that no other process opens
    /// it beside this one (`WouldBlock`). The file is synced, and its cached pages are dropped, so that reads give what is
    /// on the disk. The folder is synced while the file is empty, so before anything is written, and not later.
    pub(crate) fn open<R: Files<File = File> + Eprint>(rt: &R, path: &str) -> io::Result<FileDisk> {
        let (file, is_made) = open_or_make(rt, path)?;
        let metadata = file.metadata()?;
        if !metadata.is_file() {
            return Err(ErrorKind::InvalidInput.into());
        }
        lock(rt, &file, path)?;
        settle(&file)?;
        if metadata.len() == 0 {
            sync_folder(rt, path)?;
        }
        warn(rt, path, is_made, metadata.len(), metadata.permissions());
        Ok(FileDisk {
            file,
            has_lost: false,
        })
    }

    pub(crate) fn len(&self) -> io::Result<u64> {
        Ok(self.file.metadata()?.len())
    }

    /// Reads until the buffer is full or the file ends.
    pub(crate) fn read_at(&self, place: u64, into: &mut [u8]) -> io::Result<usize>
        ensures { IfOk result (λ count. count ≤ length into.new) }
    {
        read_up_to(&self.file, place, into)
    }

    pub(crate) fn write_at(&self, place: u64, bytes: &[u8]) -> io::Result<()> {
        self.file.write_all_at(bytes, place)
    }

    pub(crate) fn sync(&mut self) -> io::Result<()> {
        sync_once(&self.file, &mut self.has_lost)
    }
}

/// Opens a file, or makes one. Whether it was made.
fn open_or_make<R: Files<File = File>>(rt: &R, path: &str) -> io::Result<(File, bool)> {
    let mut options = OpenOptions::new();
    options.read(true).write(true);
    match options.open(rt, path) {
        Err(error) if error.kind() == ErrorKind::NotFound => {
            let file = options.create(true).mode(PRIVATE).open(rt, path)?;
            Ok((file, true))
        }
        Err(error) => Err(error),
        Ok(file) => Ok((file, false)),
    }
}

/// Locks a file, unless another process has done so, which is told.
fn lock<R: Eprint>(rt: &R, file: &File, path: &str) -> io::Result<()> {
    let answer = file.try_lock();
    if let Err(TryLockError::WouldBlock) = &answer {
        tell(
            rt,
            format_args!("socorro: {path}: another process has it open"),
        );
    }
    Ok(answer?)
}

/// Syncs the folder of a file, or tells why that can't be done.
fn sync_folder<R: Files<File = File> + Eprint>(rt: &R, path: &str) -> io::Result<()> {
    let answer = File::open(rt, folder_of(path)).and_then(|folder| folder.sync_all());
    if let Err(error) = &answer {
        tell(
            rt,
            format_args!("socorro: {path}: its folder can't be synced: {error}"),
        );
    }
    answer
}

/// Tells of a file that was made, is empty, or may be read or written by others.
fn warn<R: Eprint>(rt: &R, path: &str, is_made: bool, length: u64, permissions: Permissions) {
    let mode = permissions.mode() & 0o777;
    if is_made {
        tell(
            rt,
            format_args!("socorro: {path}: there was no journal, so an empty one was made"),
        );
    } else if length == 0 {
        tell(
            rt,
            format_args!("socorro: {path}: the file was empty, so it begins as an empty journal"),
        );
    }
    if mode & OTHERS != 0 {
        tell(
            rt,
            format_args!(
                "socorro: {path}: others may read or write it (mode {mode:o}); chmod 600 makes it private"
            ),
        );
    }
}

/// Syncs a file, and advises the system to drop what it has cached of it.
fn settle(file: &File) -> io::Result<()> {
    file.sync_all()?;
    match libc::posix_fadvise(file.as_raw_fd(), 0, 0, libc::POSIX_FADV_DONTNEED) {
        0 => Ok(()),
        error => Err(io::Error::from_raw_os_error(error)),
    }
}

/// Syncs a file, unless that has failed before.
fn sync_once(file: &File, has_lost: &mut bool) -> io::Result<()>
    ensures lost { IsErr result ↔ IsTrue has_lost.new }
    ensures stays { IsTrue has_lost.old → IsTrue has_lost.new }
{
    if *has_lost {
        return Err(ErrorKind::Other.into());
    }
    let answer = file.sync_data();
    *has_lost = answer.is_err();
    answer
}

/// The folder that a path's last name stands in.
fn folder_of(path: &str) -> &str {
    match Path::new(path).parent() {
        Some(folder) if !folder.as_str().is_empty() => folder.as_str(),
        _ => ".",
    }
}

/// Reads until the buffer is full or the file ends, through short reads and interruptions.
fn read_up_to(file: &File, place: u64, into: &mut [u8]) -> io::Result<usize>
    ensures { IfOk result (λ count. count ≤ length into.new) }
{
    let mut count = 0;
    for _ in 0..u64::MAX {
        if count >= into.len() {
            break;
        }
        match file.read_at(&mut into[count..], place.saturating_add(count as u64)) {
            Ok(0) => break,
            Ok(more) => count += more,
            Err(error) if error.kind() == ErrorKind::Interrupted => {}
            Err(error) => return Err(error),
        }
    }
    Ok(count)
}
