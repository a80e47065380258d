//! The tables of a file's records, in the order of the file.
ghost use Rattle.std.specs.Prelude.{◌≡◌, ◌<◌, ◌++◌, ◌∷◌, [], length, map, nat_lt, slice_get, List, Some, IfOk, OnOk};
ghost use Rattle.soc_symfile.specs.Line.{LineEntry};
ghost use Rattle.soc_symfile.specs.Records.{records_in};

use crate::entries::{Extent, File, Label, Line, Owned, Owner, SourceLine};
use crate::error::SymError;
use crate::owners::{extend_last, owned_at, push_owner};
use crate::places::{Place, index};
use soc_base::NoMemory;
use std::alloc::Global;
use std::marker::Model;

/// The records of the lines so far. A function's source lines stand together in their table, and so
/// do an INIT's deltas. Contracts see the records.
#[derive(Debug, Drop)]
pub struct Tables<'a> {
    functions: Vec<Owner<'a>>,
    sources: Vec<SourceLine>,
    publics: Vec<Label<'a>>,
    files: Vec<File<'a>>,
    inits: Vec<Owner<'a>>,
    deltas: Vec<Label<'a>>,
}

impl<'a> Model for Tables<'a> {
    ghost use Rattle.soc_symfile.specs.Records.{Records};

    ghost Value = { Records };

    ghost use Rattle.soc_symfile.specs.inner.Tables.{records_held, AreTables};

    ghost view = { records_held };

    ghost invariant = { AreTables };
}

impl<'a> Tables<'a> {
    /// No records.
    pub fn new(alloc: Global) -> Tables<'a>
        ensures { result ≡ records_in [] }
    {
        Tables {
            functions: Vec::new(alloc),
            sources: Vec::new(alloc),
            publics: Vec::new(alloc),
            files: Vec::new(alloc),
            inits: Vec::new(alloc),
            deltas: Vec::new(alloc),
        }
    }

    ghost use Rattle.soc_symfile.specs.inner.Places.{IsIndex};
    ghost use Rattle.soc_symfile.specs.inner.Tables.{owner_address, label_address, file_number};
    ghost use Rattle.soc_symfile.specs.inner.Tables.{Adds, onto_last, with_functions, with_publics, with_files, with_inits};
    ghost use Rattle.soc_symfile.specs.Views.{extent_entry, label_entry, file_entry, line_entry};

    /// Adds a function that has no source lines yet.
    fn add_function(&mut self, extent: Extent<'a>) -> Result<(), NoMemory>
        ensures { OnOk result (self.new
            ≡ with_functions self.old (self.old.functions
            ++ (extent_entry extent.entry, []) ∷ [])) }
    {
        push_owner(&mut self.functions, extent, self.sources.len())
    }

    /// Adds a source line to the last function.
    fn add_source(&mut self, line: SourceLine) -> Result<(), NoMemory>
        requires { 0 < length self.old.functions }
        ensures { OnOk result (self.new
            ≡ with_functions self.old (onto_last line self.old.functions)) }
    {
        self.sources.push(line)?;
        extend_last(&mut self.functions, self.sources.len());
        Ok(())
    }

    fn add_public(&mut self, label: Label<'a>) -> Result<(), NoMemory>
        ensures { OnOk result (self.new
            ≡ with_publics self.old (self.old.publics ++ label_entry label.entry ∷ [])) }
    {
        self.publics.push(label)?;
        Ok(())
    }

    fn add_file(&mut self, file: File<'a>) -> Result<(), NoMemory>
        ensures { OnOk result (self.new
            ≡ with_files self.old (self.old.files ++ file_entry file.entry ∷ [])) }
    {
        self.files.push(file)?;
        Ok(())
    }

    /// Adds an INIT that has no deltas yet.
    fn add_init(&mut self, extent: Extent<'a>) -> Result<(), NoMemory>
        ensures { OnOk result (self.new
            ≡ with_inits self.old (self.old.inits ++ (extent_entry extent.entry, []) ∷ [])) }
    {
        push_owner(&mut self.inits, extent, self.deltas.len())
    }

    /// Adds a delta to the last INIT.
    fn add_delta(&mut self, label: Label<'a>) -> Result<(), NoMemory>
        requires { 0 < length self.old.inits }
        ensures { OnOk result (self.new
            ≡ with_inits self.old (onto_last (label_entry label.entry) self.old.inits)) }
    {
        self.deltas.push(label)?;
        extend_last(&mut self.inits, self.deltas.len());
        Ok(())
    }

    fn has_function(&self) -> bool
        ensures { result ≡ nat_lt 0 (length self.now.functions) }
    {
        0 < self.functions.len()
    }

    fn has_init(&self) -> bool
        ensures { result ≡ nat_lt 0 (length self.now.inits) }
    {
        0 < self.inits.len()
    }

    /// Adds what the line of a number says. A record that belongs to a function or an INIT is
    /// refused where none stands before it.
    pub fn add(&mut self, number: u64, line: Line<'a>) -> Result<(), SymError>
        ensures { (said : List LineEntry) → self.old ≡ records_in said
            → Adds result said (line_entry line.entry) number self.new }
    {
        let bad = SymError::BadLine { line: number };
        match line {
            Line::Other => {}
            Line::File(file) => self.add_file(file)?,
            Line::Function(extent) => self.add_function(extent)?,
            Line::Public(label) => self.add_public(label)?,
            Line::Init(extent) => self.add_init(extent)?,
            Line::Source(line) => {
                if !self.has_function() {
                    return Err(bad);
                }
                self.add_source(line)?;
            }
            Line::Delta(label) => {
                if !self.has_init() {
                    return Err(bad);
                }
                self.add_delta(label)?;
            }
        }
        Ok(())
    }

    /// The places of the functions, by address.
    pub fn function_places(&self, alloc: Global) -> Result<Vec<Place>, NoMemory>
        ensures { IfOk result (λ places.
            IsIndex places.items (map owner_address self.now.functions)) }
    {
        index(alloc, self.functions.as_slice())
    }

    /// The places of the public symbols, by address.
    pub fn public_places(&self, alloc: Global) -> Result<Vec<Place>, NoMemory>
        ensures { IfOk result (λ places.
            IsIndex places.items (map label_address self.now.publics)) }
    {
        index(alloc, self.publics.as_slice())
    }

    /// The places of the files, by number.
    pub fn file_places(&self, alloc: Global) -> Result<Vec<Place>, NoMemory>
        ensures { IfOk result (λ places. IsIndex places.items (map file_number self.now.files)) }
    {
        index(alloc, self.files.as_slice())
    }

    /// The places of the INITs, by address.
    pub fn init_places(&self, alloc: Global) -> Result<Vec<Place>, NoMemory>
        ensures { IfOk result (λ places. IsIndex places.items (map owner_address self.now.inits)) }
    {
        index(alloc, self.inits.as_slice())
    }

    /// A function with its source lines.
    pub fn function(&self, at: usize) -> Owned<'_, SourceLine>
        requires { at < length self.now.functions }
        ensures { slice_get self.now.functions at
            ≡ Some (extent_entry result.extent, result.parts.now) }
    {
        owned_at(self.functions.as_slice(), self.sources.as_slice(), at)
    }

    /// A public symbol.
    pub fn public(&self, at: usize) -> Label<'_>
        requires { at < length self.now.publics }
        ensures { slice_get self.now.publics at ≡ Some (label_entry result) }
    {
        self.publics[at]
    }

    /// A file.
    pub fn file(&self, at: usize) -> File<'_>
        requires { at < length self.now.files }
        ensures { slice_get self.now.files at ≡ Some (file_entry result) }
    {
        self.files[at]
    }

    /// An INIT with its deltas.
    pub fn init(&self, at: usize) -> Owned<'_, Label<'_>>
        requires { at < length self.now.inits }
        ensures { slice_get self.now.inits at
            ≡ Some (extent_entry result.extent, map label_entry result.parts.now) }
    {
        owned_at(self.inits.as_slice(), self.deltas.as_slice(), at)
    }
}
