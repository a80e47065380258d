//! The modules of a process with their symbols.
ghost use Rattle.std.specs.Prelude.{◌≡◌, map, IfOk};
ghost use Rattle.std.specs.Option.{option_copied};
ghost use Rattle.soc_dump.specs.Views.{module_entry};
ghost use Rattle.soc_walk.specs.Process.{NoneLonger, loaded_with, symbols_for};
ghost use Rattle.soc_walk.specs.Views.{loaded_entry};

use crate::symbols::Symbols;
use soc_base::NoMemory;
use soc_dump::{Module, debug_id, short_debug_file};
use soc_symfile::SymFile;
use std::alloc::Global;

/// A module, and its symbols where it has some.
#[derive(Clone, Copy, Debug)]
pub struct Loaded<'a> {
    pub entry: &'a Module<'a>,
    pub symbols: Option<&'a SymFile<'a>>,
}

/// The symbols of a module. One without a debug file or without an id has none, nor has one whose
/// debug file has a longer name than all that have some.
pub fn symbols_for<'a, Y: Symbols>(
    alloc: Global,
    entry: &Module<'_>,
    symbols: &'a Y,
    longest: usize,
) -> Result<Option<&'a SymFile<'a>>, NoMemory>
    requires { NoneLonger (Y.symbols symbols.now) longest }
    ensures { IfOk result (λ found. option_copied found
        ≡ symbols_for (Y.symbols symbols.now) (module_entry entry.now)) }
{
    let Some(file) = short_debug_file(alloc, entry, longest)? else {
        return Ok(None);
    };
    if file.as_str().is_empty() {
        return Ok(None);
    }
    let id = debug_id(alloc, entry)?;
    if id.as_str().is_empty() {
        return Ok(None);
    }
    Ok(symbols.symbols(file.as_str(), id.as_str()))
}

/// Modules with their symbols. Each debug file and id is made once.
pub(crate) fn load<'a, Y: Symbols>(
    alloc: Global,
    entries: &'a [Module<'a>],
    symbols: &'a Y,
) -> Result<Vec<Loaded<'a>>, NoMemory>
    ensures { IfOk result (λ loaded. map loaded_entry loaded.items
        ≡ map (loaded_with (Y.symbols symbols.now)) (map module_entry entries.now)) }
{
    let longest = symbols.longest_name();
    let mut loaded = Vec::with_capacity(alloc, entries.len())?;
    for entry in entries {
        let symbols = symbols_for(alloc, entry, symbols, longest)?;
        loaded.push(Loaded { entry, symbols })?;
    }
    Ok(loaded)
}
