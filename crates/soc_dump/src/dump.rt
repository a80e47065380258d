//! A whole dump.
ghost use Rattle.std.specs.Prelude.{◌≡◌, ℕ, ◌<◌, ◌≤◌, ◌^◌, IfOk, IfSome, map, option_map, position};
ghost use Rattle.soc_dump.specs.Checks.{IsRead};
ghost use Rattle.soc_dump.specs.Dump.{dump_checks, contents_of, contents_checks, contents_in};
ghost use Rattle.soc_dump.specs.Directory.{AllInside};
ghost use Rattle.soc_dump.specs.Covering.{owner_in};
ghost use Rattle.soc_dump.specs.Views.{thread_entry, module_entry, exception_entry};
ghost use Rattle.soc_dump.specs.Memory.{word_in, regions_of, holds_address};

use crate::covering::FirstCovering;
use crate::directory::{Stream, read_header, read_streams};
use crate::error::DumpError;
use crate::exception::Exception;
use crate::memory::Region;
use crate::modules::{Module, intervals_of_modules};
use crate::streams::{find_exception, find_memory, find_modules, find_system, find_threads};
use crate::system::System;
use crate::thread::Thread;
use crate::word::find_word;
use crate::words::Words;
use soc_base::NoMemory;
use std::alloc::Global;
use std::marker::Model;

/// A minidump. It borrows the file.
#[derive(Debug, Drop)]
pub struct Dump<'a> {
    threads: Vec<Thread<'a>>,
    modules: Vec<Module<'a>>,
    memory: Vec<Region<'a>>,
    exception: Option<Exception<'a>>,
    system: Option<System>,
}

impl<'a> Model for Dump<'a> {
    ghost use Rattle.std.specs.Prelude.{map, option_map};
    ghost use Rattle.soc_dump.specs.Dump.{Contents};
    ghost use Rattle.soc_dump.specs.Views.{thread_entry, module_entry, memory_entry, exception_view};

    ghost Value = { Contents };

    ghost view = { λ d. record {
      threads = map thread_entry d.threads.items;
      modules = map module_entry d.modules.items;
      memory = map memory_entry d.memory.items;
      exception = exception_view d.exception;
      system = d.system;
    } };
}

impl<'a> Dump<'a> {
    /// Reads a dump.
    pub fn read(alloc: Global, b: &'a [u8]) -> Result<Dump<'a>, DumpError>
        ensures { IsRead result (dump_checks b.now) (λ dump. dump ≡ contents_of b.now) }
    {
        let directory = read_header(b)?;
        let streams = read_streams(alloc, b, directory)?;
        Dump::read_contents(alloc, b, streams.as_slice())
    }

    /// Reads the used streams of a dump.
    fn read_contents(
        alloc: Global,
        file: &'a [u8],
        streams: &[Stream],
    ) -> Result<Dump<'a>, DumpError>
        requires { AllInside file.now streams.now }
        ensures { IsRead result (contents_checks file.now streams.now)
            (λ dump. dump ≡ contents_in file.now streams.now) }
    {
        let threads = find_threads(alloc, file, streams)?;
        let modules = find_modules(alloc, file, streams)?;
        let memory = find_memory(alloc, file, streams)?;
        let exception = find_exception(file, streams)?;
        let system = find_system(file, streams)?;
        Ok(Dump {
            threads,
            modules,
            memory,
            exception,
            system,
        })
    }

    /// The threads, in the file's order.
    pub fn threads(&self) -> &[Thread<'_>]
        ensures { map thread_entry result.now ≡ self.now.threads }
    {
        self.threads.as_slice()
    }

    /// The modules, in the file's order, which needn't be that of their addresses.
    pub fn modules(&self) -> &[Module<'_>]
        ensures { map module_entry result.now ≡ self.now.modules }
    {
        self.modules.as_slice()
    }

    /// What ended the process, if the dump says.
    pub fn exception(&self) -> Option<&Exception<'_>>
        ensures { option_map (λ e. exception_entry e.now) result ≡ self.now.exception }
    {
        self.exception.as_ref()
    }

    /// The system that the process ran on, if the dump says.
    pub fn system(&self) -> Option<&System>
        ensures { option_map (λ s. s.now) result ≡ self.now.system }
    {
        self.system.as_ref()
    }

    /// The word of `width` bytes at an address, the lowest byte first. It comes from the first
    /// region that holds it whole: the memory list's, in its order, then the threads' stacks.
    pub fn word_at(&self, address: u64, width: u8) -> Option<u64>
        requires some { 1 ≤ width }
        requires fits { width ≤ 8 }
        ensures value { result ≡ word_in (regions_of self.now) address width }
        ensures small { IfSome result (λ word. word < 256 ^ width) }
    {
        find_word(
            self.memory.as_slice(),
            self.threads.as_slice(),
            address,
            width as usize,
        )
    }
    /// The words of `width` bytes, made ready for many look-ups by address. They are those of
    /// `word_at`.
    pub fn words(&self, alloc: Global, width: u8) -> Result<Words<'_>, NoMemory>
        requires some { 1 ≤ width }
        requires fits { width ≤ 8 }
        ensures { IfOk result (λ words. words
            ≡ record { regions = regions_of self.now; width = width }) }
    {
        Words::new(
            alloc,
            self.memory.as_slice(),
            self.threads.as_slice(),
            width as usize,
        )
    }

    /// Which module is the first that has an address, made ready for many look-ups. The table gives
    /// the module's index.
    pub fn module_table(&self, alloc: Global) -> Result<FirstCovering, NoMemory>
        ensures { IfOk result (λ table. (address : ℕ) → address < 2 ^ 64
            → owner_in table address ≡ position (holds_address address) self.now.modules) }
    {
        let intervals = intervals_of_modules(alloc, self.modules.as_slice())?;
        FirstCovering::new(alloc, intervals.as_slice())
    }
}
