//! A disk that is read through a window.
ghost use Rattle.std.specs.Prelude.{◌≡◌, ◌≤◌, ◌<◌, ◌+◌, ◌-◌, ◌↔◌, length, take, vec_len, IfSome, IfOk, OnOk, OnErr, IsOk, IsTrue};
ghost use Rattle.std.specs.Option.{option_map};
ghost use Rattle.soc_edge.specs.Calls.{one_more};
ghost use Rattle.soc_edge.specs.Disk.{written, Tears, ReadsAt, WhereTold, Only, Looks, MayTear, DiskFailed};
ghost use Rattle.soc_edge.specs.Windows.{window_size, ahead_told, Covers, IsFilled, IsWindow, IsDisk-ahead};

use crate::{Disk, Failed};
use soc_base::NoMemory;
use std::alloc::Global;
use std::marker::Model;

/// How many bytes a window has.
const WINDOW: usize = 65_536;

/// A disk that is read through a window of 64 KiB. A read that the window covers makes no call of the disk, and any other
/// that isn't longer than the window fills it anew from the read's place on, so that short reads in order are one pass in
/// large ones. A write drops the window.
///
/// It tells what the disk tells, but counts its own calls.
#[derive(Drop)]
pub struct ReadAhead<D: Disk> {
    disk: D,
    window: Window,
    calls: u64,
}

// Bytes of a disk from a place on.
#[derive(Drop)]
struct Window {
    bytes: Vec<u8>,
    from: u64,
    held: usize,
}

impl<D: Disk> Model for ReadAhead<D> {
    ghost use Rattle.soc_edge.specs.Windows.{Ahead, ahead_code, IsWindow};

    ghost Value = { Ahead D };

    ghost coded = { ahead_code D.code };

    ghost view = { λ a. record {
      disk = a.disk;
      from = a.window.from;
      held = a.window.held;
      calls = a.calls;
    } };

    ghost invariant = { λ a.
        IsWindow (D.state a.disk).content a.window.from a.window.held a.window.bytes.items };
}

impl<D: Disk> ReadAhead<D> {
    /// The disk with an empty window.
    pub fn new(alloc: Global, disk: D) -> Result<ReadAhead<D>, NoMemory>
    where
        D: Drop,
        ensures { IfOk result (λ ahead. ahead
            ≡ record { disk = disk; from = 0; held = 0; calls = 0 }) }
    {
        let window = Window::new(alloc)?;
        Ok(ReadAhead {
            disk,
            window,
            calls: 0,
        })
    }

    /// The disk itself.
    pub fn into_disk(self) -> D
        ensures { result ≡ self.disk }
    {
        let ReadAhead { disk, .. } = self;
        disk
    }
}

impl<D: Disk> Disk for ReadAhead<D> {
    ghost state = { λ a. ahead_told (D.state a.disk) a.calls };

    ghost sound = { λ a. IsDisk-ahead (D.state a.disk) a.calls (D.sound a.disk) };

    fn len(&mut self) -> Result<u64, Failed> {
        self.calls = self.calls.saturating_add(1);
        self.disk.len()
    }

    /// What the window covers is read from it. A read of more than the window has room for goes by it, and any other
    /// fills it anew.
    fn read_at(&mut self, place: u64, into: &mut [u8]) -> Result<usize, Failed>
        ensures count { IfOk result (λ n. n ≤ length into.new) }
        ensures bytes { IfOk result (λ n. IfSome (D.state self.old.disk).content
            (λ bytes. ReadsAt bytes place n into.new)) }
        ensures looks { Looks (ahead_told (D.state self.old.disk) self.old.calls)
            (ahead_told (D.state self.new.disk) self.new.calls) }
        ensures counted { self.new.calls ≡ one_more self.old.calls }
        ensures cause { OnErr result (DiskFailed (D.state self.old.disk) (D.state self.new.disk)) }
        ensures covered { Covers self.old.from self.old.held place (length into.old)
            → IsOk result × (self.new ≡ record self.old { calls = one_more self.old.calls }) }
        ensures filled { OnOk result (length into.old ≤ window_size
            → ¬ (Covers self.old.from self.old.held place (length into.old))
            → IsFilled (D.state self.old.disk).content place self.new.from self.new.held) }
        ensures one_call { (D.state self.new.disk).calls ≤ (D.state self.old.disk).calls + 1 }
    {
        self.calls = self.calls.saturating_add(1);
        if self.window.covers(place, into.len()) {
            return Ok(self.window.copy_to(place, into));
        }
        if into.len() > WINDOW {
            return self.disk.read_at(place, into);
        }
        self.window.read(&mut self.disk, place, into)
    }

    fn write_at(&mut self, place: u64, bytes: &[u8]) -> Result<(), Failed> {
        self.calls = self.calls.saturating_add(1);
        self.window.held = 0;
        self.disk.write_at(place, bytes)
    }

    fn sync(&mut self) -> Result<(), Failed> {
        self.calls = self.calls.saturating_add(1);
        self.disk.sync()
    }
}

impl Window {
    // A window that holds nothing.
    fn new(alloc: Global) -> Result<Window, NoMemory>
        ensures { IfOk result (λ window. (vec_len window.bytes ≡ window_size) × (window.from ≡ 0)
            × (window.held ≡ 0)) }
    {
        Ok(Window {
            bytes: vec![in alloc; 0; WINDOW]?,
            from: 0,
            held: 0,
        })
    }

    // Whether so many bytes from a place on are held.
    fn covers(&self, place: u64, count: usize) -> bool
        ensures { IsTrue result ↔ Covers self.now.from self.now.held place count }
    {
        self.from <= place && count <= self.held && place - self.from <= (self.held - count) as u64
    }

    // Holds what the disk has from a place on.
    fn fill<D: Disk>(&mut self, disk: &mut D, place: u64) -> Result<(), Failed>
        requires { vec_len self.old.bytes ≡ window_size }
        ensures sound { IsWindow (D.state disk.new).content self.new.from self.new.held
            self.new.bytes.items }
        ensures filled { OnOk result (IsFilled
            (D.state disk.old).content place self.new.from self.new.held) }
        ensures looks { Looks (D.state disk.old) (D.state disk.new) }
        ensures calls { (D.state disk.new).calls ≡ one_more (D.state disk.old).calls }
        ensures cause { OnErr result (DiskFailed (D.state disk.old) (D.state disk.new)) }
    {
        self.held = 0;
        self.held = disk.read_at(place, self.bytes.as_mut_slice())?;
        self.from = place;
        Ok(())
    }

    // Holds what the disk has from a place on, and copies as much of it as there is room for.
    fn read<D: Disk>(&mut self, disk: &mut D, place: u64, into: &mut [u8]) -> Result<usize, Failed>
        requires size { vec_len self.old.bytes ≡ window_size }
        requires short { length into.old ≤ window_size }
        ensures sound { IsWindow (D.state disk.new).content self.new.from self.new.held
            self.new.bytes.items }
        ensures count { IfOk result (λ n. n ≤ length into.new) }
        ensures bytes { IfOk result (λ n. IfSome (D.state disk.old).content
            (λ bytes. ReadsAt bytes place n into.new)) }
        ensures filled { OnOk result (IsFilled
            (D.state disk.old).content place self.new.from self.new.held) }
        ensures looks { Looks (D.state disk.old) (D.state disk.new) }
        ensures calls { (D.state disk.new).calls ≡ one_more (D.state disk.old).calls }
        ensures cause { OnErr result (DiskFailed (D.state disk.old) (D.state disk.new)) }
    {
        self.fill(disk, place)?;
        Ok(self.copy_to(place, into))
    }

    // Copies what is held from a place on, and answers how many bytes.
    fn copy_to(&self, place: u64, into: &mut [u8]) -> usize
        requires from { self.now.from ≤ place }
        requires within { place ≤ self.now.from + self.now.held }
        requires held { self.now.held ≤ vec_len self.now.bytes }
        ensures count { result ≤ length into.new }
        ensures reads { ReadsAt (take self.now.held self.now.bytes.items)
            (place - self.now.from) result into.new }
    {
        let start = (place - self.from) as usize;
        let count = into.len().min(self.held - start);
        into[..count].copy_from_slice(&self.bytes[start..start + count]);
        count
    }
}
