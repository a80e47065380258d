//! Symbol files, what is found in them, and paths.
use soc_symfile::{CfiSpan, SymFile, is_symbol_path, symbol_path};
use soc_tables::{Fault, Row, append, copy};
use std::alloc::Global;

/// What threads may share and hand over.
fn threads_share<T: Send + Sync>(_value: &T) {}

/// Whether a symbol file is read.
pub fn symbols(alloc: Global, row: &Row<'_>) -> Result<String, Fault> {
    let text = text_of(alloc, row)?;
    threads_share(&SymFile::read(alloc, text.as_slice())?);
    copy(alloc, "read")
}

/// A row's lines between those that its table shares.
fn text_of(alloc: Global, row: &Row<'_>) -> Result<Vec<u8>, Fault> {
    let mut text = row.bytes(alloc, "front")?;
    text.extend_from_slice(row.bytes(alloc, "text")?.as_slice())?;
    text.extend_from_slice(row.bytes(alloc, "rest")?.as_slice())?;
    Ok(text)
}

/// What is found at an offset, and whether a function is there.
pub fn found(alloc: Global, row: &Row<'_>) -> Result<String, Fault> {
    let text = row.bytes(alloc, "symbols")?;
    found_text(alloc, text.as_slice(), row.number("offset")?)
}

fn found_text(alloc: Global, symbols: &[u8], offset: u64) -> Result<String, Fault> {
    let file = SymFile::read(alloc, symbols)?;
    let found = file.find(offset);
    let function = found.function.unwrap_or("-");
    let source = found.file.unwrap_or("-");
    let mut text = format!(in alloc; "{function} {source} ")?;
    match found.line {
        Some(line) => write!(text, "{line}")?,
        None => text.push_str("-")?,
    }
    text.push_str(if file.in_func(offset) {
        " in a function"
    } else {
        ""
    })?;
    Ok(text)
}

/// The rules for the frame of an offset.
pub fn rules(alloc: Global, row: &Row<'_>) -> Result<String, Fault> {
    let text = row.bytes(alloc, "symbols")?;
    rules_at(alloc, text.as_slice(), row.number("offset")?)
}

fn rules_at(alloc: Global, symbols: &[u8], offset: u64) -> Result<String, Fault> {
    let file = SymFile::read(alloc, symbols)?;
    match file.cfi(offset) {
        Some(span) => rules_text(alloc, span),
        None => copy(alloc, "none"),
    }
}

fn rules_text(alloc: Global, span: CfiSpan<'_>) -> Result<String, Fault> {
    let mut text = copy(alloc, span.init())?;
    for place in 0..span.deltas() {
        let (address, rules) = span.delta(place);
        append(
            &mut text,
            format!(in alloc; "{address:x} {rules}")?.as_str(),
        )?;
    }
    Ok(text)
}

/// The path of a file's symbols, if it is known as one.
pub fn path(alloc: Global, row: &Row<'_>) -> Result<String, Fault> {
    let file = row.text(alloc, "file")?;
    path_text(alloc, file.as_str(), row.cell("id")?)
}

fn path_text(alloc: Global, file: &str, id: &str) -> Result<String, Fault> {
    let path = symbol_path(alloc, file, id)?;
    if is_symbol_path(path.as_str(), file, id) {
        copy(alloc, path.as_str())
    } else {
        copy(alloc, "not known as a path")
    }
}

/// Whether a path is that of a file's symbols.
pub fn is_path(alloc: Global, row: &Row<'_>) -> Result<String, Fault> {
    let path = row.text(alloc, "path")?;
    let is = is_symbol_path(path.as_str(), row.cell("file")?, row.cell("id")?);
    Ok(format!(in alloc; "{is}")?)
}
