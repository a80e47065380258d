//! Which symbol files have an id.
ghost use Rattle.std.specs.Prelude.{◌≡◌, ◌<◌, length, map, set, slice_index, IfOk, OnOk};
ghost use Rattle.soc_base.specs.Names.{with_value};
ghost use Rattle.soc_report.specs.inner.Index.{IsIndex, place_or};
ghost use Rattle.soc_report.specs.inner.Kits.{ids_of};
ghost use Rattle.soc_report.specs.inner.Reading.{symbol_view};

use crate::parts::middle_part;
use crate::texts::SymbolFile;
use soc_base::{NoMemory, Sorted, Text};
use std::alloc::Global;

/// For each id the first symbol file that has it in its path, and for each symbol file the next one with the same id.
/// Where there is none, the place is the number of symbol files.
#[derive(Debug, Drop)]
pub struct Index {
    first: Sorted<usize>,
    next: Vec<usize>,
}

impl Index {
    /// The index of symbol files, by the middle parts of their paths.
    pub fn of(alloc: Global, symbols: &[SymbolFile]) -> Result<Index, NoMemory>
        ensures { IfOk result (λ index. IsIndex (ids_of (map symbol_view symbols.now)) index) }
    {
        let count = symbols.len();
        let mut index = Index {
            first: Sorted::new(alloc),
            next: vec![in alloc; count; count]?,
        };
        let mut place = count;
        while place > 0 {
            place -= 1;
            let id = middle_part(symbols[place].path.as_str());
            index.put(alloc, id, place)?;
        }
        Ok(index)
    }

    /// Puts a symbol file with an id before all others.
    fn put(&mut self, alloc: Global, id: &str, place: usize) -> Result<(), NoMemory>
        requires { place < length self.old.next.items }
        ensures first { OnOk result (self.new.first ≡ with_value self.old.first id.now place) }
        ensures next { OnOk result (self.new.next.items
            ≡ set self.old.next.items place
            (place_or (length self.old.next.items) self.old.first id.now)) }
    {
        self.next[place] = self.first(id);
        self.first.set(Text::of(alloc, id)?, place)
    }

    /// The first symbol file with an id.
    pub fn first(&self, id: &str) -> usize
        ensures { result ≡ place_or (length self.now.next.items) self.now.first id.now }
    {
        match self.first.get(id) {
            Some(place) => *place,
            None => self.next.len(),
        }
    }

    /// The next symbol file that has the id of one.
    pub fn next(&self, place: usize) -> usize
        requires { place < length self.now.next.items }
        ensures { result ≡ slice_index self.now.next.items place }
    {
        self.next[place]
    }
}
