//! A whole text, line by line.
ghost use Rattle.std.specs.Prelude.{◌≡◌, [], ◌∷◌, map};
ghost use Rattle.std.specs.Str.Lines.{lines};
ghost use Rattle.soc_symfile.specs.Line.{Other, line_of};
ghost use Rattle.soc_symfile.specs.Records.{records_in, records_of};
ghost use Rattle.soc_symfile.specs.Reading.{Gives};
ghost use Rattle.soc_symfile.specs.inner.Tables.{outcome_after};

use crate::error::SymError;
use crate::line::{is_module_line, line_of};
use crate::lines::split_line;
use crate::tables::Tables;
use std::alloc::Global;

const FIRST_LINE: u64 = 1;

/// Adds the records of the lines behind the first.
fn read_lines<'a>(mut tables: Tables<'a>, text: &'a [u8]) -> Result<Tables<'a>, SymError>
    requires { tables ≡ records_in [] }
    ensures { Gives result (outcome_after (Other ∷ []) (map line_of (lines text.now))) }
{
    let mut number = FIRST_LINE;
    let mut rest = text;
    while let Some((line, others)) = split_line(rest) {
        number += 1;
        let Some(line) = line_of(line) else {
            return Err(SymError::BadLine { line: number });
        };
        tables.add(number, line)?;
        rest = others;
    }
    Ok(tables)
}

/// The tables of a text's records.
pub fn read_tables(alloc: Global, text: &[u8]) -> Result<Tables<'_>, SymError>
    ensures { Gives result (records_of text.now) }
{
    let Some((first, others)) = split_line(text) else {
        return Err(SymError::BadLine { line: FIRST_LINE });
    };
    if !is_module_line(first) {
        return Err(SymError::BadLine { line: FIRST_LINE });
    }
    read_lines(Tables::new(alloc), others)
}
