//! Signatures.
use crate::lists::{read, texts};
use soc_base::Text;
use soc_siglists::RegexMaker;
use soc_sigrules::{SigInput, signature};
use soc_tables::{Fault, Row};
use std::alloc::Global;

/// The signature of a crash with these frames, under these lists.
pub fn signature_of(alloc: Global, row: &Row<'_>) -> Result<String, Fault> {
    signed(alloc, row, &input_of(alloc, row)?)
}

/// The signature of a shutdown that hangs, with what it says of itself.
pub fn shutdown(alloc: Global, row: &Row<'_>) -> Result<String, Fault> {
    let mut input = input_of(alloc, row)?;
    input.shutdown = row.optional(alloc, "shutdown")?.map(Text::from);
    signed(alloc, row, &input)
}

fn signed(alloc: Global, row: &Row<'_>, input: &SigInput) -> Result<String, Fault> {
    let lists = read(
        alloc,
        row,
        &mut RegexMaker::new(),
        "irrelevant",
        "prefix",
        "sentinel",
    )?;
    let signature = signature(alloc, input, &lists)?;
    copy(alloc, signature.text.as_str())
}

/// The same text.
pub fn copy(alloc: Global, text: &str) -> Result<String, Fault> {
    Ok(String::from_str(alloc, text)?)
}

fn input_of(alloc: Global, row: &Row<'_>) -> Result<SigInput, Fault> {
    Ok(SigInput {
        thread_found: true,
        frames: texts(alloc, row, "frames")?,
        oom: row.optional(alloc, "oom")?.map(Text::from),
        abort: None,
        shutdown: None,
        ipc: None,
        ipc_browser: false,
        overflow: false,
        hang: false,
        bad_hardware: false,
    })
}
