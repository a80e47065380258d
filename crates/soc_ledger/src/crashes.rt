//! The accepted crashes by number and by id.
ghost use Rattle.std.specs.Prelude.{◌≡◌, ◌-◌, ◌+◌, ◌<◌, ◌≤◌, ◌^◌, ◌++◌, ◌∷◌, [], false, length, map, count_by, bytes_eq, slice_get, slice_index_or, slice_set, MatchOption, Some, OnOk};
ghost use Rattle.std.specs.List.{list_any};
ghost use Rattle.soc_base.specs.Names.{byte_cmp};
ghost use Rattle.soc_ledger.specs.Events.{is_among};
ghost use Rattle.soc_ledger.specs.inner.Tables.{FindsNumber, IsIndex, ids_in, shows_report};

use crate::crash::{Crash, Standing};
use soc_base::NoMemory;
use soc_raw::CrashId;
use std::alloc::Global;
use std::cmp::Ordering;
use std::marker::Model;

/// The accepted crashes. A crash has a number, counted from 0 in the order of acceptance.
#[derive(Debug, Drop)]
pub(crate) struct Crashes {
    crashes: Vec<Crash>,
    /// The numbers of the crashes in rising order of their ids.
    by_id: Vec<u32>,
    withdrawn: u32,
    reported: u32,
}

impl Model for Crashes {
    ghost use Rattle.std.specs.Prelude.{◌-◌, map, min, vec_len, vec_capacity};
    ghost use Rattle.soc_ledger.specs.inner.Tables.{CrashTable, IsCrashTable};

    ghost Value = { CrashTable };

    ghost view = { λ a. record {
      filed = map (λ c. c.filed) a.crashes.items;
      standings = map
          (λ c. c.standing) a.crashes.items;
      room = min (vec_capacity a.crashes - vec_len a.crashes)
          (vec_capacity a.by_id - vec_len a.by_id);
    } };

    ghost invariant = { λ a. IsCrashTable a.crashes.items a.by_id.items a.withdrawn a.reported };
}

impl Crashes {
    /// No crash.
    pub(crate) fn new(alloc: Global) -> Crashes
        ensures filed { result.filed ≡ [] }
        ensures standings { result.standings ≡ [] }
    {
        Crashes {
            crashes: Vec::new(alloc),
            by_id: Vec::new(alloc),
            withdrawn: 0,
            reported: 0,
        }
    }

    /// Takes memory for `count` more crashes.
    pub(crate) fn reserve(&mut self, count: usize) -> Result<(), NoMemory>
        ensures filed { self.new.filed ≡ self.old.filed }
        ensures standings { self.new.standings ≡ self.old.standings }
        ensures room { OnOk result (count ≤ self.new.room) }
        ensures kept { self.old.room ≤ self.new.room }
    {
        self.crashes.reserve(count)?;
        self.by_id.reserve(count)?;
        Ok(())
    }

    /// How many crashes there are.
    pub(crate) fn len(&self) -> u32
        ensures count { result ≡ length self.now.filed }
        ensures standings { result ≡ length self.now.standings }
    {
        self.crashes.len() as u32
    }

    /// How many of them are withdrawn.
    pub(crate) fn withdrawn(&self) -> u32
        ensures { result ≡ count_by (λ s. s.withdrawn) self.now.standings }
    {
        self.withdrawn
    }

    /// How many of them show a report.
    pub(crate) fn reported(&self) -> u32
        ensures { result ≡ count_by shows_report self.now.standings }
    {
        self.reported
    }

    /// The number of the crash of an id.
    pub(crate) fn number_of(&self, id: CrashId) -> Option<u32>
        ensures { MatchOption result (is_among (ids_in self.now.filed) id ≡ false)
            (λ number. slice_get (ids_in self.now.filed) number ≡ Some id) }
    {
        match place_of(self.crashes.as_slice(), self.by_id.as_slice(), &id) {
            Ok(i) => Some(self.by_id[i]),
            Err(_) => None,
        }
    }

    /// The crash of a number.
    pub(crate) fn get(&self, number: u32) -> &Crash
        requires { number < length self.now.filed }
        ensures filed { slice_get self.now.filed number ≡ Some result.now.filed }
        ensures standing { slice_get self.now.standings number ≡ Some result.now.standing }
    {
        &self.crashes[number as usize]
    }

    /// One more crash.
    pub(crate) fn push(&mut self, crash: Crash)
        requires is_new { is_among (ids_in self.old.filed) crash.filed.id ≡ false }
        requires few { length self.old.filed < 2 ^ 32 - 1 }
        requires room { 0 < self.old.room }
        ensures filed { self.new.filed ≡ self.old.filed ++ crash.filed ∷ [] }
        ensures standings { self.new.standings ≡ self.old.standings ++ crash.standing ∷ [] }
        ensures room { self.old.room ≤ self.new.room + 1 }
    {
        let number = self.crashes.len() as u32;
        let place = place_of(
            self.crashes.as_slice(),
            self.by_id.as_slice(),
            &crash.filed.id,
        );
        let Err(place) = place else {
            unreachable!();
        };
        self.withdrawn += u32::from(crash.standing.withdrawn);
        self.reported += u32::from(crash.standing.shows_report());
        self.by_id.insert(place, number).unwrap();
        self.crashes.push(crash).unwrap();
    }

    /// How a crash stands from now on.
    pub(crate) fn set_standing(&mut self, number: u32, standing: Standing)
        requires { number < length self.old.filed }
        ensures filed { self.new.filed ≡ self.old.filed }
        ensures standings { self.new.standings ≡ slice_set self.old.standings number standing }
        ensures room { self.new.room ≡ self.old.room }
    {
        let crash = &mut self.crashes[number as usize];
        self.withdrawn = self.withdrawn - u32::from(crash.standing.withdrawn)
            + u32::from(standing.withdrawn);
        self.reported = self.reported - u32::from(crash.standing.shows_report())
            + u32::from(standing.shows_report());
        crash.standing = standing;
    }
}

/// How the id of a crash compares to another, by bytes.
fn compare(crash: &Crash, id: &CrashId) -> Ordering
    ensures { result ≡ byte_cmp crash.now.filed.id id.now }
{
    crash.filed.id.cmp(id)
}

/// Where the number of the crash of an id stands among the numbers in rising order of ids, or else where it would stand.
fn place_of(crashes: &[Crash], numbers: &[u32], id: &CrashId) -> Result<usize, usize>
    requires { IsIndex (map (λ crash. crash.filed.id) crashes.now) numbers.now }
    ensures { FindsNumber (map (λ crash. crash.filed.id) crashes.now) numbers.now id.now result }
{
    let mut low = 0;
    let mut high = numbers.len();
    while low < high {
        let middle = low + (high - low) / 2;
        match compare(&crashes[numbers[middle] as usize], id) {
            Ordering::Less => low = middle + 1,
            Ordering::Equal => return Ok(middle),
            Ordering::Greater => high = middle,
        }
    }
    Err(low)
}
