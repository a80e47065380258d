//! The texts of `texts.txt`, by their names.
use soc_tables::{Fault, Row, unescape};
use std::alloc::Global;

/// The text of a name.
pub fn text_of(alloc: Global, texts: &str, name: &str) -> Result<Vec<u8>, Fault> {
    let mut text = Vec::new(alloc);
    let mut is_ours = false;
    for line in texts.lines() {
        match line.strip_prefix("== ") {
            Some(head) => is_ours = head.split_once(": ").unwrap_or((head, "")).0 == name,
            None if is_ours => push_line(alloc, &mut text, line)?,
            None => (),
        }
    }
    if text.is_empty() {
        return Err(Fault::new(format_args!("texts.txt has no {name}")));
    }
    Ok(text)
}

/// Appends a line that is no comment, which ends with CR LF unless there is a `\` at its end.
fn push_line(alloc: Global, text: &mut Vec<u8>, line: &str) -> Result<(), Fault> {
    if line.starts_with('#') {
        return Ok(());
    }
    let (line, end) = match line.strip_suffix("\\") {
        Some(line) => (line, b"".as_slice()),
        None => (line, b"\r\n".as_slice()),
    };
    text.extend_from_slice(unescape(alloc, line)?.as_slice())?;
    text.extend_from_slice(end)?;
    Ok(())
}

/// The texts that a column's cell names, one after another.
pub fn joined(alloc: Global, texts: &str, row: &Row<'_>, name: &str) -> Result<Vec<u8>, Fault> {
    let mut all = Vec::new(alloc);
    for item in row.items(alloc, name)? {
        all.extend_from_slice(text_of(alloc, texts, item.as_str())?.as_slice())?;
    }
    Ok(all)
}
