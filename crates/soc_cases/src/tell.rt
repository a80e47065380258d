//! What a run left, beside what its case says.
ghost use Rattle.std.specs.Prelude.{◌≡◌, Some, None, IfOk, IfErr};
ghost use Rattle.toml.specs.View.{table_view};
ghost use Rattle.soc_cases.specs.Keys as spec;

use crate::case::{flag_of, joined, number_of, text_of};
use crate::fault::Fault;
use crate::play::Left;
use soc_toml::text_at;
use std::alloc::Global;
use toml::Table;

/// Prints of a run whether it left what its case says, and else what it left.
pub fn tell<R: Print + AllocGlobal>(
    rt: &R,
    document: &Table,
    case: &Table,
    left: &Left,
) -> Result<(), Fault> {
    let name = text_of(case, "name")?;
    let status = number_of(case, "status", 0)?;
    if left.status as u64 != status {
        println!(rt; "{name}: status {}", left.status)?;
    } else if !is_output(rt.alloc(), document, case, left.output.bytes())? {
        println!(rt;
            "{name}: wrote {}",
            str::from_utf8(left.output.bytes()).unwrap_or("other bytes")
        )?;
    } else if !is_journal(case, left.disk.bytes())? {
        println!(rt; "{name}: a journal of {} bytes", left.disk.bytes().len())?;
    } else {
        println!(rt; "{name}: as expected")?;
    }
    Ok(())
}

/// Whether a run wrote what its case says, where the case says it.
fn is_output(alloc: Global, document: &Table, case: &Table, bytes: &[u8]) -> Result<bool, Fault> {
    Ok(flag_of(case, "any_output")? || bytes == output_of(alloc, document, case)?.as_slice())
}

/// What a run is to write: the texts that its case names, and then the one that stands in it.
fn output_of(alloc: Global, document: &Table, case: &Table) -> Result<Vec<u8>, Fault> {
    let mut output = joined(alloc, document, case, "output")?;
    if let Some(text) = text_at(case, "says") {
        output.extend_from_slice(text.as_bytes())?;
    }
    Ok(output)
}

/// Whether the bytes of a disk are those of a case, and as many.
fn is_journal(case: &Table, bytes: &[u8]) -> Result<bool, Fault>
    ensures value { IfOk result (λ is. spec.is_journal (table_view case.now) bytes.now ≡ Some is) }
    ensures wrong { IfErr result (λ _. spec.is_journal (table_view case.now) bytes.now ≡ None) }
{
    let length = number_of(case, "length", bytes.len() as u64)?;
    let is_same = match text_at(case, "journal") {
        Some(text) => bytes == text.as_bytes(),
        None => true,
    };
    Ok(is_same && length == bytes.len() as u64)
}
