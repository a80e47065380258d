//! A file's bytes as a TOML table.
ghost use Rattle.std.specs.Prelude.{◌≡◌, IfOk, option_map};
ghost use Rattle.toml.specs.View.{table_view};
ghost use Rattle.soc_replay.specs.Documents.{document_of};

use soc_base::NoMemory;
use std::alloc::Global;
use toml::Table;

/// The table that the bytes are, as TOML in UTF-8. `None` where they are none; empty bytes are an empty table.
pub fn document(alloc: Global, bytes: &[u8]) -> Result<Option<Table>, NoMemory>
    ensures { IfOk result (λ found. option_map (λ table. table_view table) found
        ≡ document_of bytes.now) }
{
    let Ok(text) = str::from_utf8(bytes) else {
        return Ok(None);
    };
    match toml::table_from_str(alloc, text) {
        Ok(table) => Ok(Some(table)),
        Err(error) => {
            if error.is_memory() {
                return Err(NoMemory);
            }
            Ok(None)
        }
    }
}
