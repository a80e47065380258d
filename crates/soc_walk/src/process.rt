//! A process whose stacks are walked.
ghost use Rattle.std.specs.Prelude.{◌≡◌, ℕ, IfOk, IfSome, map, option_map, position, slice_get, find, Some};
ghost use Rattle.std.specs.Option.{option_copied};
ghost use Rattle.soc_cfi.specs.Views.{in_force};
ghost use Rattle.soc_walk.specs.Process as spec;
ghost use Rattle.soc_walk.specs.Views.{loaded_entry};

use crate::architecture::Architecture;
use crate::loaded::{Loaded, load};
use crate::symbols::Symbols;
use soc_base::NoMemory;
use soc_cfi::{Memory, Rules};
use soc_dump::{Dump, FirstCovering, Words};
use soc_step::Surroundings;
use std::alloc::Global;
use std::marker::Model;

/// A process whose stacks are walked: its modules with their symbols, and its memory, made ready to
/// be found by addresses.
#[derive(Drop)]
pub struct Process<'a> {
    architecture: Architecture,
    loaded: Vec<Loaded<'a>>,
    table: FirstCovering,
    words: Words<'a>,
}

impl<'a> Model for Process<'a> {
    ghost use Rattle.soc_walk.specs.Process.{ProcessEntry};

    ghost Value = { ProcessEntry };

    ghost use Rattle.soc_walk.specs.inner.Process.{process_entry, IsReady};

    ghost view = { process_entry };

    ghost invariant = { IsReady };
}

impl<'a> Process<'a> {
    /// The process of a dump. The tables and each module's debug file and id take memory, and the
    /// walks of its stacks take none but their frames'.
    pub fn new<Y: Symbols>(
        alloc: Global,
        dump: &'a Dump<'a>,
        architecture: Architecture,
        symbols: &'a Y,
    ) -> Result<Process<'a>, NoMemory>
        ensures { IfOk result (λ process. process
            ≡ spec.process_of (Y.symbols symbols.now) dump.now architecture) }
    {
        let words = dump.words(alloc, architecture.machine().width.bytes())?;
        let table = dump.module_table(alloc)?;
        let loaded = load(alloc, dump.modules(), symbols)?;
        Ok(Process {
            architecture,
            loaded,
            table,
            words,
        })
    }

    /// The architecture.
    pub(crate) fn architecture(&self) -> Architecture
        ensures { result ≡ self.now.architecture }
    {
        self.architecture
    }

    /// The index of the first module that holds an address.
    pub(crate) fn index_at(&self, address: u64) -> Option<usize>
        ensures { result ≡ position (spec.holds address) self.now.loaded }
    {
        self.table.at(address)
    }

    /// The module at an index, with its symbols.
    pub(crate) fn loaded(&self, index: usize) -> Option<Loaded<'_>>
        ensures { option_map loaded_entry result ≡ slice_get self.now.loaded index }
    {
        self.loaded.get(index).copied()
    }

    /// The first module that holds an address, with its symbols.
    fn loaded_at(&self, address: u64) -> Option<Loaded<'_>>
        ensures { option_map loaded_entry result ≡ spec.loaded_at self.now address }
    {
        self.loaded(self.index_at(address)?)
    }
}

impl<'a> Process<'a> {
    /// How far an offset in the module that holds an address lies behind the begin of what the module's symbols name
    /// there.
    pub fn into_function(&self, address: u64, offset: u64) -> Option<u64>
        ensures { result ≡ spec.into_function self.now address offset }
    {
        let loaded = self.loaded_at(address)?;
        let start = loaded.symbols?.start(offset)?;
        Some(offset.saturating_sub(start))
    }
}

/// Whether an address of a module can be code: with symbols, where a function covers it.
fn is_code(address: u64, loaded: &Loaded<'_>) -> bool
    ensures { result ≡ spec.is_code address (loaded_entry loaded.now) }
{
    match loaded.symbols {
        Some(symbols) => symbols.in_func(address.saturating_sub(loaded.entry.base)),
        None => true,
    }
}

/// Whether a word counts as a return address for the module that holds it.
fn returns_into(word: u64, loaded: &Loaded<'_>) -> bool
    ensures { result ≡ spec.returns_into word (loaded_entry loaded.now) }
{
    match loaded.symbols {
        Some(symbols) => {
            let base = loaded.entry.base;
            base < word && symbols.in_func((word - 1).saturating_sub(base))
        }
        None => true,
    }
}

impl<'a> Process<'a> {
    /// Whether an address can be code of a module.
    fn is_in_code(&self, address: u64) -> bool
        ensures { result ≡ spec.is_in_code self.now address }
    {
        match self.loaded_at(address) {
            Some(loaded) => is_code(address, &loaded),
            None => false,
        }
    }

    /// Whether a word counts as a return address for the module that holds it.
    fn returns_into_module(&self, word: u64) -> bool
        ensures { result ≡ spec.returns_into_module self.now word }
    {
        match self.loaded_at(word) {
            Some(loaded) => returns_into(word, &loaded),
            None => false,
        }
    }
}

impl<'a> Memory for Process<'a> {
    ghost use Rattle.soc_walk.specs.Process.{word_at};

    ghost word = { word_at };

    fn word(&self, address: u64, width: u8) -> Option<u64> {
        if width == self.architecture.machine().width.bytes() {
            self.words.at(address)
        } else {
            None
        }
    }
}

impl<'a> Surroundings for Process<'a> {
    ghost use Rattle.soc_walk.specs.Process.{is_in_module, takes_on, rules_in};

    ghost is_in_module = { is_in_module };

    ghost takes = { λ process. takes_on process.architecture process };

    ghost rules = { rules_in };

    fn is_in_module(&self, address: u64) -> bool {
        self.loaded_at(address).is_some()
    }

    fn takes(&self, word: u64) -> bool {
        match self.architecture {
            Architecture::X86 => self.returns_into_module(word),
            Architecture::Amd64 => self.returns_into_module(word),
            Architecture::Arm64 => word != 0
                && self.is_in_module(word)
                && self.is_in_code(word - 1),
        }
    }

    fn rules(&self, address: u64) -> Option<Rules<'_>> {
        let loaded = self.loaded_at(address)?;
        let offset = address.saturating_sub(loaded.entry.base);
        let span = loaded.symbols?.cfi(offset)?;
        Some(Rules::at(span, offset))
    }
}
