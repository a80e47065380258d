//! Streams that are lists of entries.
ghost use Rattle.std.specs.Prelude.{◌≡◌, ◌+◌, ◌*◌, ◌<◌, ◌≤◌, [], ◌∷◌, length, IsTrue};
ghost use Rattle.soc_dump.specs.Checks.{IsRead};
ghost use Rattle.soc_dump.specs.Part.{is_inside};
ghost use Rattle.soc_dump.specs.Dump.{list_check, entries_of, entries_from};

use crate::directory::Stream;
use crate::error::DumpError;
use crate::field::narrow;
use crate::layout::LIST_COUNT;

/// The entries of a list: where the first stands in the file, and how many there are.
#[derive(Clone, Copy, Debug, PartialEq, Eq)]
pub struct Entries {
    pub first: usize,
    pub count: usize,
}

/// Finds the entries of a list stream. They may stand after four bytes of padding.
pub fn read_list(file: &[u8], stream: Stream, size: usize) -> Result<Entries, DumpError>
    requires inside { IsTrue (is_inside file.now stream.place stream.size) }
    requires small { size < 256 }
    ensures { IsRead result (list_check file.now size stream ∷ [])
        (λ list. (entries_of file.now size stream
        ≡ entries_from file.now list.first size list.count)
        × (list.first + list.count * size ≤ length file.now)) }
{
    let bad = DumpError::BadStream {
        kind: stream.kind,
        place: stream.place as u64,
    };
    let place = stream.place as usize;
    let available = stream.size as usize;
    if available < 4 {
        return Err(bad);
    }
    let count = narrow(&file[place..], LIST_COUNT) as usize;
    let entries = count * size;
    if available != 4 + entries && available != 8 + entries {
        return Err(bad);
    }
    Ok(Entries {
        first: place + (available - entries),
        count,
    })
}
