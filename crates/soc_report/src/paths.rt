//! The paths that `symbols.txt` names.
ghost use Rattle.std.specs.Prelude.{◌≡◌, true, false, IfOk, IfErr, MatchOption, Some};
ghost use Rattle.std.specs.Str.{is_utf8};
ghost use Rattle.soc_report.specs.Texts.{paths_in, name_of};
ghost use Rattle.soc_report.specs.inner.Reading.{RefusesList, RefusesPaths};

use crate::error::KitError;
use soc_base::{NoMemory, Text};
use soc_siglists::entry_texts;
use std::alloc::Global;

/// The list of symbol files.
pub const SYMBOLS_LIST: &str = "symbols.txt";

/// How many symbol files are named at most.
const MOST_PATHS: usize = 4096;

/// Where a symbol file stands in the tree.
pub fn name_of(alloc: Global, path: &str) -> Result<Text, NoMemory>
    ensures { IfOk result (λ name. name ≡ name_of path.now) }
{
    Ok(Text::from(format!(in alloc; "symbols/{path}")?))
}

/// The refusal of `symbols.txt` itself.
fn no_list(alloc: Global) -> KitError
    ensures { RefusesList result }
{
    match Text::of(alloc, SYMBOLS_LIST) {
        Ok(name) => KitError::Missing { name },
        Err(error) => KitError::from(error),
    }
}

/// The path that an entry is; nothing where it isn't UTF-8.
fn path_of(alloc: Global, entry: &[u8]) -> Result<Option<Text>, NoMemory>
    ensures { IfOk result (λ path.
        MatchOption path (is_utf8 entry.now ≡ false)
        (λ text. (text ≡ entry.now) × (is_utf8 entry.now ≡ true))) }
{
    match str::from_utf8(entry) {
        Ok(path) => Ok(Some(Text::of(alloc, path)?)),
        Err(_) => Ok(None),
    }
}

/// The paths of a list, one a line, which are UTF-8 and at most 4,096.
pub fn read_paths(alloc: Global, bytes: &[u8]) -> Result<Vec<Text>, KitError>
    ensures reads { IfOk result (λ paths. paths_in bytes.now ≡ Some paths.items) }
    ensures refuses { IfErr result (λ error. RefusesPaths error bytes.now) }
{
    let entries = entry_texts(alloc, bytes)?;
    if entries.len() > MOST_PATHS {
        return Err(no_list(alloc));
    }
    let mut paths = Vec::with_capacity(alloc, entries.len())?;
    for entry in &entries {
        let Some(path) = path_of(alloc, entry)? else {
            return Err(no_list(alloc));
        };
        paths.push(path)?;
    }
    Ok(paths)
}
