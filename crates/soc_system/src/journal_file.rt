//! A journal's file.

use crate::alarm::Alarm;
use crate::disk::FileDisk;
use crate::notices::Faults;
use crate::opening::Opening;
use soc_edge::Device;
use std::fs::File;
use std::io::{self, ErrorKind};
use std::rt::Files;
use std::time::Clock;

/// The file of a path as a device. It is opened, or made, at the first call; where that can't be done the call fails. The
/// operator is told of what fails, and of an opening that takes its time.
#[derive(Drop)]
pub struct JournalFile<'a, R> {
    rt: &'a R,
    path: &'a str,
    /// What a failed sync raises, since nothing more can be kept before the file is opened anew.
    alarm: &'a Alarm,
    disk: Option<FileDisk>,
    opening: Option<Opening>,
    unopened: Faults,
    unread: Faults,
    unwritten: Faults,
    unsynced: Faults,
}

impl<'a, R: Files<File = File> + Eprint + Clock> JournalFile<'a, R> {
    /// The file of a path, which isn't opened yet, and what a failed sync of it raises.
    pub fn new(rt: &'a R, path: &'a str, alarm: &'a Alarm) -> Self {
        JournalFile {
            rt,
            path,
            alarm,
            disk: None,
            opening: None,
            unopened: Faults::new("the journal can't be opened", "the program ends"),
            unread: Faults::new("reading failed", "what needs it is answered 503"),
            unwritten: Faults::new(
                "writing failed",
                "what was to be kept is answered 503, and with room again all goes on by itself",
            ),
            unsynced: Faults::new(
                "a sync failed",
                "nothing more can be kept before the journal is opened anew, so `serve` ends",
            ),
        }
    }

    /// The file, which is opened where it isn't yet.
    fn opened(&mut self) -> io::Result<&mut FileDisk> {
        if self.disk.is_none() {
            let answer = FileDisk::open(self.rt, self.path);
            let disk = self.unopened.noted(self.rt, self.path, answer)?;
            self.opening = Some(Opening::begin(self.rt, disk.len()?));
            self.disk = Some(disk);
        }
        self.disk.as_mut().ok_or(ErrorKind::Other.into())
    }
}

impl<'a, R: Files<File = File> + Eprint + Clock> Device for JournalFile<'a, R> {
    type Error = io::Error;

    fn len(&mut self) -> io::Result<u64> {
        let answer = self.opened()?.len();
        self.unread.noted(self.rt, self.path, answer)
    }

    fn read_at(&mut self, place: u64, into: &mut [u8]) -> io::Result<usize> {
        let answer = self.opened()?.read_at(place, into);
        if let (Some(opening), Ok(count)) = (&mut self.opening, &answer) {
            opening.note(self.rt, self.path, place, *count);
        }
        self.unread.noted(self.rt, self.path, answer)
    }

    fn write_at(&mut self, place: u64, bytes: &[u8]) -> io::Result<()> {
        let answer = self.opened()?.write_at(place, bytes);
        self.opening = None;
        self.unwritten.noted(self.rt, self.path, answer)
    }

    fn sync(&mut self) -> io::Result<()> {
        let answer = self.opened()?.sync();
        if answer.is_err() {
            self.alarm.raise();
        }
        self.unsynced.noted(self.rt, self.path, answer)
    }
}
