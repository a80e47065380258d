//! A disk that tells nothing but its counts of calls and faults.
ghost use Rattle.std.specs.Prelude.{◌≡◌, ◌≤◌, length, IfOk};
ghost use Rattle.soc_edge.specs.Untold.{untold_disk, IsDisk-untold};

use crate::{Disk, Failed, FaultCount};

/// What is read and written at places, as a file of the system is. Nothing is told of it.
pub trait Device {
    /// Why a call fails.
    type Error: Drop;

    /// How many bytes it has.
    fn len(&mut self) -> Result<u64, Self::Error>;

    /// Reads from a place on to the front of `into`, and answers how many bytes it gave.
    fn read_at(&mut self, place: u64, into: &mut [u8]) -> Result<usize, Self::Error>
        ensures { IfOk result (λ n. n ≤ length into.new) };

    /// Writes at a place.
    fn write_at(&mut self, place: u64, bytes: &[u8]) -> Result<(), Self::Error>;

    /// Makes what was written safe from a stop.
    fn sync(&mut self) -> Result<(), Self::Error>;
}

/// A device as a disk, which counts the calls and those of them that fail.
#[derive(Drop)]
pub struct Counted<D> {
    device: D,
    calls: u64,
    faults: FaultCount,
}

impl<D> Counted<D> {
    /// The device, of which no call was made.
    pub fn new(device: D) -> Counted<D>
        ensures { result ≡ record { device = device; calls = 0; faults = record { count = 0 } } }
    {
        Counted {
            device,
            calls: 0,
            faults: FaultCount::new(),
        }
    }

    /// The device.
    pub fn device(&self) -> &D
        ensures { result.now ≡ self.now.device }
    {
        &self.device
    }
}

impl<D: Device> Disk for Counted<D> {
    ghost state = { λ disk. untold_disk disk.calls disk.faults.count };

    ghost sound = { λ disk. IsDisk-untold disk.calls disk.faults.count };

    fn len(&mut self) -> Result<u64, Failed> {
        self.calls = self.calls.saturating_add(1);
        let answer = self.device.len();
        self.faults.counted(answer)
    }

    fn read_at(&mut self, place: u64, into: &mut [u8]) -> Result<usize, Failed> {
        self.calls = self.calls.saturating_add(1);
        let answer = self.device.read_at(place, into);
        self.faults.counted(answer)
    }

    fn write_at(&mut self, place: u64, bytes: &[u8]) -> Result<(), Failed> {
        self.calls = self.calls.saturating_add(1);
        let answer = self.device.write_at(place, bytes);
        self.faults.counted(answer)
    }

    fn sync(&mut self) -> Result<(), Failed> {
        self.calls = self.calls.saturating_add(1);
        let answer = self.device.sync();
        self.faults.counted(answer)
    }
}
