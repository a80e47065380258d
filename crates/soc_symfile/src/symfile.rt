//! A whole symbol file.
ghost use Rattle.std.specs.Prelude.{◌≡◌, IfOk, map, option_map};
ghost use Rattle.soc_symfile.specs.Records.{records_of};
ghost use Rattle.soc_symfile.specs.Found.{found, start_of, owner_at, is_in_function, file_named, is_hidden, public_at};
ghost use Rattle.soc_symfile.specs.Cfi.{span_at};
ghost use Rattle.soc_symfile.specs.Reading.{Gives};
ghost use Rattle.soc_symfile.specs.Views.{extent_entry, label_entry, finding_of, span_of};

use crate::cfi_span::CfiSpan;
use crate::covers::{covers, source_at};
use crate::entries::{Label, Owned, SourceLine};
use crate::error::SymError;
use crate::found::Found;
use crate::places::{Place, last_of, nearest};
use crate::reading::read_tables;
use crate::tables::Tables;
use soc_base::NoMemory;
use std::alloc::Global;
use std::marker::Model;

/// A symbol file. It borrows the text; a look-up takes no memory. Contracts see its records.
#[derive(Debug, Drop)]
pub struct SymFile<'a> {
    tables: Tables<'a>,
    functions: Vec<Place>,
    publics: Vec<Place>,
    files: Vec<Place>,
    inits: Vec<Place>,
}

impl<'a> Model for SymFile<'a> {
    ghost use Rattle.soc_symfile.specs.Records.{Records};

    ghost Value = { Records };

    ghost use Rattle.soc_symfile.specs.inner.SymFile.{records_in_file, IsIndexed};

    ghost view = { records_in_file };

    ghost invariant = { IsIndexed };
}

impl<'a> SymFile<'a> {
    /// Reads a symbol file (Breakpad's symbol files), whose first line is `MODULE`. The first bad
    /// line refuses it as a whole.
    pub fn read(alloc: Global, b: &'a [u8]) -> Result<SymFile<'a>, SymError>
        ensures { Gives result (records_of b.now) }
    {
        let tables = match read_tables(alloc, b) {
            Ok(tables) => tables,
            Err(error) => return Err(error),
        };
        match SymFile::sorted(alloc, tables) {
            Ok(file) => Ok(file),
            Err(NoMemory) => Err(SymError::NoMemory),
        }
    }

    /// The tables with the places of their records.
    fn sorted(alloc: Global, tables: Tables<'a>) -> Result<SymFile<'a>, NoMemory>
        ensures { IfOk result (λ file. file ≡ tables.entry) }
    {
        let functions = tables.function_places(alloc)?;
        let publics = tables.public_places(alloc)?;
        let files = tables.file_places(alloc)?;
        let inits = tables.init_places(alloc)?;
        Ok(SymFile {
            tables,
            functions,
            publics,
            files,
            inits,
        })
    }

    /// The function that covers an offset.
    fn function_at(&self, offset: u64) -> Option<Owned<'_, SourceLine>>
        ensures { option_map (λ owned. (extent_entry owned.extent, owned.parts.now)) result
            ≡ owner_at self.now.functions offset }
    {
        let at = nearest(self.functions.as_slice(), offset)?;
        let function = self.tables.function(at);
        if covers(offset, function.extent.address, function.extent.size) {
            Some(function)
        } else {
            None
        }
    }

    /// The INIT that covers an offset.
    fn init_at(&self, offset: u64) -> Option<Owned<'_, Label<'_>>>
        ensures { option_map (λ owned. (extent_entry owned.extent, map label_entry owned.parts.now))
            result ≡ owner_at self.now.inits offset }
    {
        let at = nearest(self.inits.as_slice(), offset)?;
        let init = self.tables.init(at);
        if covers(offset, init.extent.address, init.extent.size) {
            Some(init)
        } else {
            None
        }
    }

    /// The name that was given last to a file's number.
    fn file_named(&self, number: u32) -> Option<&str>
        ensures { option_map (λ name. name.now) result ≡ file_named self.now.files number }
    {
        let at = last_of(self.files.as_slice(), u64::from(number))?;
        Some(self.tables.file(at).name)
    }

    /// Whether a function begins above the address, and at or below the offset.
    fn is_hidden(&self, offset: u64, address: u64) -> bool
        ensures { result ≡ is_hidden self.now offset address }
    {
        match nearest(self.functions.as_slice(), offset) {
            Some(at) => address < self.tables.function(at).extent.address,
            None => false,
        }
    }

    /// The public symbol before an offset, unless a function hides it.
    fn public_at(&self, offset: u64) -> Option<Label<'_>>
        ensures { option_map label_entry result ≡ public_at self.now offset }
    {
        let at = nearest(self.publics.as_slice(), offset)?;
        let label = self.tables.public(at);
        if self.is_hidden(offset, label.address) {
            None
        } else {
            Some(label)
        }
    }

    /// What the file says of an offset in its module: the function that covers it, with its source
    /// line, or else the public symbol before it. It takes no memory.
    pub fn find(&self, offset: u64) -> Found<'_>
        ensures { finding_of result ≡ found self.now offset }
    {
        let Some(function) = self.function_at(offset) else {
            return Found {
                function: self.public_at(offset).map(|label| label.text),
                file: None,
                line: None,
            };
        };
        let name = Some(function.extent.text);
        match source_at(function.parts, offset) {
            Some(source) => Found {
                function: name,
                file: self.file_named(source.file),
                line: Some(source.line),
            },
            None => Found {
                function: name,
                file: None,
                line: None,
            },
        }
    }

    /// Where what names an offset begins: the function that covers it, or else the public symbol before it. It takes no
    /// memory.
    pub fn start(&self, offset: u64) -> Option<u64>
        ensures { result ≡ start_of self.now offset }
    {
        if let Some(function) = self.function_at(offset) {
            return Some(function.extent.address);
        }
        let label = self.public_at(offset)?;
        Some(label.address)
    }

    /// Whether a function covers an offset. It takes no memory.
    pub fn in_func(&self, offset: u64) -> bool
        ensures { result ≡ is_in_function self.now offset }
    {
        self.function_at(offset).is_some()
    }

    /// The call frame information of an offset, where an INIT covers it. It takes no memory.
    pub fn cfi(&self, offset: u64) -> Option<CfiSpan<'_>>
        ensures { option_map span_of result ≡ span_at self.now offset }
    {
        let init = self.init_at(offset)?;
        Some(CfiSpan {
            init: init.extent.text,
            deltas: init.parts,
        })
    }
}
