//! The lines of a file, each with its continuations.
use crate::fault::Fault;
use std::alloc::Global;

/// A line with its continuations.
#[derive(Drop)]
pub struct Line {
    /// The number of its first line, counted from 1.
    pub number: usize,
    pub text: String,
}

/// The heads and rows of a file.
pub fn lines_of(alloc: Global, text: &str) -> Result<Vec<Line>, Fault> {
    let mut lines = Vec::new(alloc);
    for (count, line) in text.lines().enumerate() {
        if line.is_empty() || line.starts_with('#') {
            continue;
        }
        if line.starts_with(' ') {
            go_on(&mut lines, line)?;
        } else {
            lines.push(Line {
                number: count.saturating_add(1),
                text: String::from_str(alloc, line)?,
            })?;
        }
    }
    Ok(lines)
}

/// Appends a continuation to the last line.
fn go_on(lines: &mut Vec<Line>, line: &str) -> Result<(), Fault> {
    if let Some(last) = lines.last_mut() {
        if last.text.as_str().ends_with('\\') {
            let _ = last.text.pop();
        } else {
            last.text.push(' ')?;
        }
        last.text.push_str(line.trim_start())?;
    }
    Ok(())
}
