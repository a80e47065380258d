//! Lists and symbols, with which reports are made.
ghost use Rattle.std.specs.Prelude.{◌≡◌, ◌<◌, ◌≤◌, ◌+◌, length, map, slice_get, IfOk, IfErr, IsErrOf, MatchOption, Some};
ghost use Rattle.soc_edge.specs.Faults.{Rose};
ghost use Rattle.soc_raw.specs.RawCrash.{crash_of};
ghost use Rattle.soc_symfile.specs.Path.{path_of};
ghost use Rattle.soc_report.specs.Kits.{IsKit, kit_of, symbols_in, first_bad_symbols};
ghost use Rattle.soc_report.specs.inner.Kits.{ReadsSymbol, HaveRecords, OnlyBadLine, LeadsOn, HasNoSlash, IsFirst, IsNowhere, ids_of};
ghost use Rattle.soc_report.specs.inner.Reading.{symbol_view};

use crate::dump::reading_of;
use crate::error::KitError;
use crate::index::Index;
use crate::known::report;
use crate::parts::slashes;
use crate::paths::name_of;
use crate::texts::{KitText, SymbolFile};
use soc_base::NoMemory;
use soc_raw::RawCrash;
use soc_schema::{Reporter, Row};
use soc_siglists::{Lists, Maker};
use soc_symfile::{SymError, SymFile, is_symbol_path};
use soc_walk::Symbols;
use std::alloc::Global;
use std::marker::Model;

/// The lists and symbols that reports are made with. It borrows their texts, which threads may share.
#[derive(Drop)]
pub struct Kit<'a> {
    texts: &'a KitText,
    lists: Lists,
    files: Vec<SymFile<'a>>,
    index: Index,
    digest: [u8; 32],
}

impl<'a> Model for Kit<'a> {
    ghost use Rattle.soc_report.specs.Texts.{KitTexts};
    ghost use Rattle.soc_report.specs.inner.Kits.{IsWhole};

    ghost Value = { KitTexts };

    ghost view = { λ k. k.texts.now };

    ghost invariant = { IsWhole };
}

/// Reads a symbol file.
fn read_file<'a>(alloc: Global, symbol: &'a SymbolFile) -> Result<SymFile<'a>, KitError>
    ensures { ReadsSymbol result (symbol_view symbol.now) }
{
    match SymFile::read(alloc, symbol.content.as_slice()) {
        Ok(file) => Ok(file),
        Err(SymError::BadLine { line }) => {
            let name = name_of(alloc, symbol.path.as_str())?;
            Err(KitError::BadLine { name, line })
        }
        Err(SymError::NoMemory) => Err(KitError::NoMemory),
    }
}

/// Reads symbol files, in order.
fn read_files<'a>(alloc: Global, symbols: &'a [SymbolFile]) -> Result<Vec<SymFile<'a>>, KitError>
    ensures reads { IfOk result (λ files. HaveRecords (map symbol_view symbols.now) files.items) }
    ensures refuses { IfErr result
        (λ error. OnlyBadLine error (first_bad_symbols (map symbol_view symbols.now))) }
{
    let mut files = Vec::with_capacity(alloc, symbols.len())?;
    for symbol in symbols {
        files.push(read_file(alloc, symbol)?)?;
    }
    Ok(files)
}

impl<'a> Kit<'a> {
    /// Reads the lists, in the order irrelevant, prefix, sentinel, and then the symbol files. The first text that has a
    /// bad line refuses all.
    pub fn read<P: Maker>(
        alloc: Global,
        texts: &'a KitText,
        maker: &mut P,
    ) -> Result<Kit<'a>, KitError>
        ensures reads { IsKit result texts.now }
        ensures never_fall { P.faults maker.old ≤ P.faults maker.new }
        ensures cause { IsErrOf result KitError.MakerFault
            → Rose (P.faults maker.old) (P.faults maker.new) }
    {
        let lists = Lists::read(
            alloc,
            maker,
            texts.irrelevant(),
            texts.prefix(),
            texts.sentinel(),
        )?;
        let files = read_files(alloc, texts.symbols())?;
        let index = Index::of(alloc, texts.symbols())?;
        Ok(Kit {
            texts,
            lists,
            files,
            index,
            digest: texts.digest(),
        })
    }

    /// The lists.
    pub(crate) fn lists(&self) -> &Lists
        ensures { result.now ≡ (kit_of self.now).lists }
    {
        &self.lists
    }

    /// The first place at which the path of a debug file with the id may stand.
    fn first_place(&self, debug_id: &str) -> usize
        ensures { LeadsOn self.now.symbols debug_id.now 0 result }
    {
        if slashes(debug_id) == 0 {
            self.index.first(debug_id)
        } else {
            0
        }
    }

    /// The next such place behind one.
    fn next_place(&self, debug_id: &str, place: usize) -> usize
        requires within { place < length self.now.symbols }
        requires on_chain { HasNoSlash debug_id.now
            → slice_get (ids_of self.now.symbols) place ≡ Some debug_id.now }
        ensures { LeadsOn self.now.symbols debug_id.now (place + 1) result }
    {
        if slashes(debug_id) == 0 {
            self.index.next(place)
        } else {
            place + 1
        }
    }

    /// Where the first path stands that is that of a debug file with an id.
    fn place_of(&self, debug_file: &str, debug_id: &str) -> Option<usize>
        ensures { MatchOption result (IsNowhere self.now.symbols
            (path_of debug_file.now debug_id.now))
            (IsFirst self.now.symbols (path_of debug_file.now debug_id.now)) }
    {
        let mut place = self.first_place(debug_id);
        while place < self.texts.count() {
            if is_symbol_path(self.texts.path(place), debug_file, debug_id) {
                return Some(place);
            }
            place = self.next_place(debug_id, place);
        }
        None
    }
}

impl<'a> Symbols for Kit<'a> {
    ghost symbols = { λ kit. symbols_in (kit_of kit) };

    fn symbols(&self, debug_file: &str, debug_id: &str) -> Option<&SymFile<'_>> {
        self.files.get(self.place_of(debug_file, debug_id)?)
    }

    /// No name has more bytes than the longest path.
    fn longest_name(&self) -> usize {
        let mut longest: usize = 0;
        for place in 0..self.texts.count() {
            longest = longest.max(self.texts.path(place).len());
        }
        longest
    }
}

impl<'a> Reporter for Kit<'a> {
    ghost use Rattle.std.specs.Prelude.{Some};
    ghost use Rattle.sha2.specs.Sha256.{sha256};
    ghost use Rattle.soc_report.specs.Digests.{digested};
    ghost use Rattle.soc_report.specs.Report.{report_of};
    ghost use Rattle.soc_report.specs.inner.Tells.{report_of-tells};

    ghost row_of = { λ kit crash. report_of crash (kit_of kit) };

    ghost digest_of = { λ kit. Some (sha256 (digested kit)) };

    ghost tells = { λ kit crash. report_of-tells crash (kit_of kit) };

    fn row(&self, alloc: Global, raw: &RawCrash) -> Result<Row, NoMemory> {
        let reading = reading_of(alloc, raw)?;
        report(alloc, self, raw, &reading)
    }

    fn digest(&self) -> Option<[u8; 32]> {
        Some(self.digest)
    }
}
