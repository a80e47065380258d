//! A disk of which nothing is told, and that gives zeros.
use soc_edge::{Device, Disk, Failed, MemDisk};

/// From a call on, counted from 0, each read gives zeros.
#[derive(Drop)]
pub struct Zeroed {
    pub disk: MemDisk,
    pub from: u64,
    pub calls: u64,
}

impl Zeroed {
    /// The number of this call.
    fn call(&mut self) -> u64 {
        let call = self.calls;
        self.calls = call.saturating_add(1);
        call
    }
}

impl Device for Zeroed {
    type Error = Failed;

    fn len(&mut self) -> Result<u64, Failed> {
        self.call();
        self.disk.len()
    }

    fn read_at(&mut self, place: u64, into: &mut [u8]) -> Result<usize, Failed> {
        let call = self.call();
        let answer = self.disk.read_at(place, into);
        if self.from <= call {
            into.fill(0);
        }
        answer
    }

    fn write_at(&mut self, place: u64, bytes: &[u8]) -> Result<(), Failed> {
        self.call();
        self.disk.write_at(place, bytes)
    }

    fn sync(&mut self) -> Result<(), Failed> {
        self.call();
        self.disk.sync()
    }
}
