//! A disk in memory.
ghost use Rattle.std.specs.Prelude.{◌≡◌, ◌≤◌, ◌<◌, ◌+◌, ◌↔◌, ℕ, List, Some, false, nat_lt, min, length, take, [], ◌∷◌, ◌++◌, vec_len, vec_capacity, IfSome, IfOk, OnOk, OnErr, IsErr, IsTrue};
ghost use Rattle.soc_edge.specs.Calls.{no_calls, is_due, passed, failed, after_call};
ghost use Rattle.soc_edge.specs.Disk.{ReadsAt, Looks, MayTear};
ghost use Rattle.soc_edge.specs.inner.DiskLaws.{IsDisk-told};
ghost use Rattle.soc_edge.specs.DiskLog.{Made, Wrote, Synced, content_of, IsImage, stopped, disk_told, bytes_written, refuses_sync, refuses_write};
ghost use Rattle.soc_edge.specs.Faults.{Rose};

use super::calls::CallCount;
use super::lists::Numbers;
use super::put::{append, put};
use super::stop::play;
use crate::{Disk, Failed};
use soc_base::NoMemory;
use std::alloc::Global;
use std::marker::Model;

// A write of so many bytes at a place, or a sync.
#[derive(Clone, Copy)]
pub enum DiskStep {
    Write { place: usize, count: usize },
    Sync,
}

/// A disk in memory. It keeps what it began with, and each write and sync since, so that a stop may leave any of its
/// images.
#[derive(Drop)]
pub struct MemDisk {
    first: Vec<u8>,
    bytes: Vec<u8>,
    written: Vec<u8>,
    log: Vec<DiskStep>,
    room: usize,
    limit: usize,
    calls: CallCount,
}

impl Model for MemDisk {
    ghost use Rattle.soc_edge.specs.DiskLog.{DiskState};

    ghost Value = { DiskState };

    ghost use Rattle.soc_edge.specs.inner.DiskState.{disk_state, IsSound};

    ghost view = { disk_state };

    ghost invariant = { IsSound };
}

impl MemDisk {
    /// An empty disk with room for so many bytes, written in all and at once, and for so many writes and syncs.
    /// Its calls with these numbers fail, counted from 0.
    pub fn new(alloc: Global, room: u64, calls: u32, fails: Numbers) -> Result<MemDisk, NoMemory>
        ensures { IfOk result (λ d. d ≡ record {
          first = [];
          log = [];
          room = room;
          limit = calls;
          calls = no_calls fails;
        }) }
    {
        let room = room as usize;
        let limit = calls as usize;
        Ok(MemDisk {
            first: Vec::with_capacity(alloc, room)?,
            bytes: Vec::with_capacity(alloc, room)?,
            written: Vec::with_capacity(alloc, room)?,
            log: Vec::with_capacity(alloc, limit)?,
            room,
            limit,
            calls: CallCount::new(fails),
        })
    }

    /// What a read gives.
    pub fn bytes(&self) -> &[u8]
        ensures { result.now ≡ content_of self.now }
    {
        self.bytes.as_slice()
    }

    /// One of the images that a stop may leave now, by a choice, with room and calls anew and none that fails.
    ///
    /// Each digit of the choice, in base 4 and from the last one on, is for one of the writes since the last sync,
    /// from the first one on: 0 loses the write, 1 keeps it, 2 keeps the first half of its bytes, 3 flips each bit of
    /// them.
    pub fn stop(self, choice: u64) -> MemDisk
        ensures image { IsImage self.first self.log result.first }
        ensures chosen { result ≡ record {
          first = (stopped self.first self.log choice).image;
          log = [];
          room = self.room;
          limit = self.limit;
          calls = no_calls [];
        } }
    {
        let MemDisk {
            first: mut image,
            mut bytes,
            mut written,
            mut log,
            room,
            limit,
            calls,
        } = self;
        play(&mut image, &log, &written, choice);
        bytes.clear();
        append(&mut bytes, &image);
        written.clear();
        log.clear();
        MemDisk {
            first: image,
            bytes,
            written,
            log,
            room,
            limit,
            calls: calls.afresh(),
        }
    }

    // Whether the next call is one of those that fail.
    fn is_due(&self) -> bool
        ensures { result ≡ is_due self.now.calls }
    {
        self.calls.is_due()
    }

    // How many writes and syncs were made.
    fn made(&self) -> usize
        ensures { result ≡ length self.now.log }
    {
        self.log.len()
    }

    // How many bytes were written in all.
    fn written(&self) -> usize
        ensures { result ≡ bytes_written self.now.log }
    {
        self.written.len()
    }

    // How many bytes there is room for.
    fn room(&self) -> usize
        ensures { result ≡ self.now.room }
    {
        self.room
    }

    fn refuses_sync(&self) -> bool
        ensures value { result ≡ refuses_sync self.now }
        ensures log_fits { result ≡ false → length self.now.log < self.now.limit }
    {
        self.is_due() || self.limit <= self.made()
    }

    fn refuses_write(&self, place: u64, count: usize) -> bool
        ensures value { result ≡ refuses_write self.now place count }
        ensures log_fits { result ≡ false → length self.now.log < self.now.limit }
        ensures ends { result ≡ false → place + count ≤ self.now.room }
        ensures written_fits { result ≡ false → bytes_written self.now.log + count ≤ self.now.room }
    {
        let room = self.room();
        self.refuses_sync()
            || ends_past(room, place as usize, count)
            || ends_past(room, self.written(), count)
    }

    // A call was made, and failed.
    fn fail(&mut self) -> Failed
        ensures counted { self.new ≡ record self.old { calls = failed self.old.calls } }
        ensures rose { Rose self.old.calls.failed self.new.calls.failed }
        ensures looks { Looks (disk_told self.old) (disk_told self.new) }
    {
        self.calls.fail()
    }

    // A call was made, and succeeded.
    fn pass(&mut self)
        ensures counted { self.new ≡ record self.old { calls = passed self.old.calls } }
        ensures looks { Looks (disk_told self.old) (disk_told self.new) }
    {
        self.calls.pass();
    }

    // Makes a write.
    fn keep(&mut self, place: usize, bytes: &[u8])
        requires log_fits { length self.old.log < self.old.limit }
        requires ends { place + length bytes.now ≤ self.old.room }
        requires written_fits { bytes_written self.old.log + length bytes.now ≤ self.old.room }
        ensures { self.new ≡ record self.old { log = Wrote place bytes.now ∷ self.old.log } }
    {
        put(&mut self.bytes, place, bytes);
        append(&mut self.written, bytes);
        let count = bytes.len();
        add(&mut self.log, DiskStep::Write { place, count });
    }

    // Makes a sync.
    fn settle(&mut self)
        requires { length self.old.log < self.old.limit }
        ensures { self.new ≡ record self.old { log = Synced ∷ self.old.log } }
    {
        add(&mut self.log, DiskStep::Sync);
    }
}

impl Disk for MemDisk {
    ghost state = { disk_told };

    ghost sound = { IsDisk-told };

    fn len(&mut self) -> Result<u64, Failed>
        ensures fails { IsErr result ↔ IsTrue (is_due self.old.calls) }
        ensures value { IfOk result (λ n. n ≡ length (content_of self.old)) }
        ensures after { self.new ≡ record self.old { calls = after_call self.old.calls result } }
        ensures looks { Looks (disk_told self.old) (disk_told self.new) }
    {
        if self.is_due() {
            return Err(self.fail());
        }
        self.pass();
        Ok(self.bytes().len() as u64)
    }

    fn read_at(&mut self, place: u64, into: &mut [u8]) -> Result<usize, Failed>
        ensures fails { IsErr result ↔ IsTrue (is_due self.old.calls) }
        ensures value { IfOk result (λ n. ReadsAt (content_of self.old) place n into.new) }
        ensures after { self.new ≡ record self.old { calls = after_call self.old.calls result } }
        ensures looks { Looks (disk_told self.old) (disk_told self.new) }
    {
        if self.is_due() {
            return Err(self.fail());
        }
        self.pass();
        Ok(copy_from(self.bytes(), place, into))
    }

    fn write_at(&mut self, place: u64, bytes: &[u8]) -> Result<(), Failed>
        ensures fails { IsErr result ↔ IsTrue (refuses_write self.old place (length bytes.now)) }
        ensures made { OnOk result (self.new ≡ record self.old {
          log = Wrote place bytes.now
              ∷ self.old.log;
          calls = passed self.old.calls;
        }) }
        ensures refused { OnErr result (self.new
            ≡ record self.old { calls = failed self.old.calls }) }
        ensures tears { MayTear place (length bytes.now) (disk_told self.old) (disk_told self.new) }
    {
        if self.refuses_write(place, bytes.len()) {
            return Err(self.fail());
        }
        self.pass();
        self.keep(place as usize, bytes);
        Ok(())
    }

    fn sync(&mut self) -> Result<(), Failed>
        ensures fails { IsErr result ↔ IsTrue (refuses_sync self.old) }
        ensures made { OnOk result (self.new ≡ record self.old {
          log = Synced
              ∷ self.old.log;
          calls = passed self.old.calls;
        }) }
        ensures refused { OnErr result (self.new
            ≡ record self.old { calls = failed self.old.calls }) }
        ensures looks { Looks (disk_told self.old) (disk_told self.new) }
    {
        if self.refuses_sync() {
            return Err(self.fail());
        }
        self.pass();
        self.settle();
        Ok(())
    }
}

// Copies bytes from a place on, and answers how many.
fn copy_from(bytes: &[u8], place: u64, into: &mut [u8]) -> usize
    ensures count { result ≤ length into.new }
    ensures reads { ReadsAt bytes.now place result into.new }
{
    let start = (place as usize).min(bytes.len());
    let count = into.len().min(bytes.len() - start);
    into[..count].copy_from_slice(&bytes[start..start + count]);
    count
}

// Whether so many bytes from a place on end past the room.
fn ends_past(room: usize, place: usize, count: usize) -> bool
    ensures value { result ≡ nat_lt room (place + count) }
    ensures fits { result ≡ false → place + count ≤ room }
{
    room < count || room - count < place
}

// Adds an entry at the end.
fn add(log: &mut Vec<DiskStep>, entry: DiskStep)
    requires { vec_len log.old < vec_capacity log.old }
    ensures items { log.new.items ≡ log.old.items ++ entry ∷ [] }
    ensures len { vec_len log.new ≡ vec_len log.old + 1 }
    ensures room { vec_capacity log.old ≤ vec_capacity log.new }
{
    log.push(entry).unwrap();
}
