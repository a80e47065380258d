//! The texts that a kit is read from.
ghost use Rattle.std.specs.Prelude.{◌≡◌, ◌<◌, length, map, option_map, slice_get, Some, IfOk, IfErr, IfSome, IsErrOf};
ghost use Rattle.soc_edge.specs.Tree.{OnlyLooks, TreeFailed};
ghost use Rattle.soc_report.specs.Texts.{IsReadFrom, IsOfReading, text_at};
ghost use Rattle.soc_report.specs.inner.Reading.{symbol_view, IsFault, IsThere, AreThere, RefusesSymbol, RefusesSymbols};

use crate::error::KitError;
use crate::paths::{SYMBOLS_LIST, name_of, read_paths};
use soc_base::{Bytes, NoMemory, Text};
use soc_edge::{Tree, TreeError};
use std::alloc::Global;
use std::marker::Model;

/// A symbol file, not yet read.
#[derive(Debug, Drop)]
pub struct SymbolFile {
    /// Its path as `symbols.txt` names it.
    pub path: Text,
    pub content: Bytes,
}

/// The texts that reports are made with: three list files and the symbol files. Contracts see the bytes of each.
#[derive(Debug, Drop)]
pub struct KitText {
    irrelevant: Bytes,
    prefix: Bytes,
    sentinel: Bytes,
    symbols: Vec<SymbolFile>,
}

impl Model for KitText {
    ghost use Rattle.std.specs.Prelude.{map};
    ghost use Rattle.soc_report.specs.Texts.{KitTexts};
    ghost use Rattle.soc_report.specs.inner.Reading.{symbol_view};

    ghost Value = { KitTexts };

    ghost view = { λ t. record {
      irrelevant = t.irrelevant;
      prefix = t.prefix;
      sentinel =
          t.sentinel;
      symbols = map symbol_view t.symbols.items;
    } };
}

/// A file of the tree.
fn file_of<T: Tree>(alloc: Global, tree: &mut T, name: &str) -> Result<Option<Bytes>, KitError>
    ensures gives { IfOk result (λ file.
        IfSome (T.told tree.old).files (λ files. file ≡ files name.now)) }
    ensures refuses { IfErr result IsFault }
    ensures looks { OnlyLooks (T.told tree.old) (T.told tree.new) }
    ensures cause { IsErrOf result KitError.TreeFault
        → TreeFailed (T.told tree.old) (T.told tree.new) }
{
    match tree.file(alloc, name) {
        Ok(file) => Ok(file),
        Err(TreeError::Failed) => Err(KitError::TreeFault),
        Err(TreeError::NoMemory) => Err(KitError::NoMemory),
    }
}

/// A file of the tree; one that isn't there counts as empty.
fn text_at<T: Tree>(alloc: Global, tree: &mut T, name: &str) -> Result<Bytes, KitError>
    ensures gives { IfOk result (λ text.
        IfSome (T.told tree.old).files (λ files. text ≡ text_at files name.now)) }
    ensures refuses { IfErr result IsFault }
    ensures looks { OnlyLooks (T.told tree.old) (T.told tree.new) }
    ensures cause { IsErrOf result KitError.TreeFault
        → TreeFailed (T.told tree.old) (T.told tree.new) }
{
    match file_of(alloc, tree, name)? {
        Some(bytes) => Ok(bytes),
        None => Ok(Bytes::of(alloc, b"")?),
    }
}

/// The symbol file of a path.
fn symbol_file<T: Tree>(alloc: Global, tree: &mut T, path: &str) -> Result<SymbolFile, KitError>
    ensures gives { IfOk result (λ file.
        IfSome (T.told tree.old).files (λ files. IsThere files path.now (symbol_view file))) }
    ensures refuses { IfErr result
        (λ error. IfSome (T.told tree.old).files (λ files. RefusesSymbol error files path.now)) }
    ensures kinds { IfErr result IsOfReading }
    ensures looks { OnlyLooks (T.told tree.old) (T.told tree.new) }
    ensures cause { IsErrOf result KitError.TreeFault
        → TreeFailed (T.told tree.old) (T.told tree.new) }
{
    let name = name_of(alloc, path)?;
    match file_of(alloc, tree, name.as_str())? {
        Some(content) => Ok(SymbolFile {
            path: Text::of(alloc, path)?,
            content,
        }),
        None => Err(KitError::Missing { name }),
    }
}

/// The symbol files of some paths, in their order.
fn symbol_files<T: Tree>(
    alloc: Global,
    tree: &mut T,
    paths: &[Text],
) -> Result<Vec<SymbolFile>, KitError>
    ensures gives { IfOk result (λ symbols.
        IfSome (T.told tree.old).files
        (λ files. AreThere files paths.now (map symbol_view symbols.items))) }
    ensures refuses { IfErr result
        (λ error. IfSome (T.told tree.old).files (λ files. RefusesSymbols error files paths.now)) }
    ensures kinds { IfErr result IsOfReading }
    ensures looks { OnlyLooks (T.told tree.old) (T.told tree.new) }
    ensures cause { IsErrOf result KitError.TreeFault
        → TreeFailed (T.told tree.old) (T.told tree.new) }
{
    let mut symbols = Vec::with_capacity(alloc, paths.len())?;
    for path in paths {
        symbols.push(symbol_file(alloc, tree, path.as_str())?)?;
    }
    Ok(symbols)
}

impl KitText {
    /// Reads `irrelevant.txt`, `prefix.txt`, `sentinel.txt`, `symbols.txt` and then each symbol file that this names,
    /// from the folder `symbols`. A missing one of the first four counts as empty. `Missing` comes where `symbols.txt`
    /// is no list of at most 4,096 paths in UTF-8, and for the first symbol file that isn't there.
    pub fn read<T: Tree>(alloc: Global, tree: &mut T) -> Result<KitText, KitError>
        ensures gives { IfSome (T.told tree.old).files (IsReadFrom result) }
        ensures kinds { IfErr result IsOfReading }
        ensures looks { OnlyLooks (T.told tree.old) (T.told tree.new) }
        ensures cause { IsErrOf result KitError.TreeFault
            → TreeFailed (T.told tree.old) (T.told tree.new) }
    {
        let irrelevant = text_at(alloc, tree, "irrelevant.txt")?;
        let prefix = text_at(alloc, tree, "prefix.txt")?;
        let sentinel = text_at(alloc, tree, "sentinel.txt")?;
        let list = text_at(alloc, tree, SYMBOLS_LIST)?;
        let paths = read_paths(alloc, list.as_slice())?;
        let symbols = symbol_files(alloc, tree, paths.as_slice())?;
        Ok(KitText {
            irrelevant,
            prefix,
            sentinel,
            symbols,
        })
    }

    /// The irrelevant list.
    pub(crate) fn irrelevant(&self) -> &[u8]
        ensures { result.now ≡ self.now.irrelevant }
    {
        self.irrelevant.as_slice()
    }

    /// The list of prefixes.
    pub(crate) fn prefix(&self) -> &[u8]
        ensures { result.now ≡ self.now.prefix }
    {
        self.prefix.as_slice()
    }

    /// The list of sentinels.
    pub(crate) fn sentinel(&self) -> &[u8]
        ensures { result.now ≡ self.now.sentinel }
    {
        self.sentinel.as_slice()
    }

    /// The symbol files.
    pub(crate) fn symbols(&self) -> &[SymbolFile]
        ensures { map symbol_view result.now ≡ self.now.symbols }
    {
        self.symbols.as_slice()
    }

    /// How many symbol files there are.
    pub(crate) fn count(&self) -> usize
        ensures { result ≡ length self.now.symbols }
    {
        self.symbols.len()
    }

    /// The path of a symbol file.
    pub(crate) fn path(&self, place: usize) -> &str
        requires { place < length self.now.symbols }
        ensures { option_map (λ s. s.path) (slice_get self.now.symbols place) ≡ Some result.now }
    {
        self.symbols[place].path.as_str()
    }
}
