//! Texts of frames.
use soc_base::Text;
use soc_frames::{Frame, Trust, collapse, drop_return_type, normal, rust_name};
use soc_tables::{Fault, Row, number_of};
use std::alloc::Global;

/// The text of a frame.
pub fn frame(alloc: Global, row: &Row<'_>) -> Result<String, Fault> {
    let frame = Frame {
        instruction: 0x7FFE_0001_0ABC,
        trust: Trust::Context,
        module: row.optional(alloc, "module")?.map(Text::from),
        offset: 0x1_0ABC,
        function: row.optional(alloc, "function")?.map(Text::from),
        file: row.optional(alloc, "file")?.map(Text::from),
        line: line_of(row.cell("line")?)?,
    };
    Ok(String::from_str(alloc, normal(alloc, &frame)?.as_str())?)
}

fn line_of(cell: &str) -> Result<Option<u32>, Fault> {
    match cell {
        "-" => Ok(None),
        _ => Ok(Some(cell.parse::<u32>()?)),
    }
}

/// The text of a frame whose function is also read alone, and what comes of that where it is something else.
pub fn rust(alloc: Global, row: &Row<'_>) -> Result<String, Fault> {
    let text = frame(alloc, row)?;
    let name = rust_name(alloc, row.text(alloc, "function")?.as_str())?;
    if text.as_str() == name.as_str() {
        Ok(text)
    } else {
        Ok(format!(in alloc; "{}, alone {}", text.as_str(), name.as_str())?)
    }
}

/// A function without the type that it returns.
pub fn without_type(alloc: Global, row: &Row<'_>) -> Result<String, Fault> {
    let function = row.text(alloc, "function")?;
    Ok(String::from_str(alloc, drop_return_type(function.as_str()))?)
}

/// A function with its brackets taken out.
pub fn collapsed(alloc: Global, row: &Row<'_>) -> Result<String, Fault> {
    let function = row.text(alloc, "function")?;
    Ok(String::from_str(alloc, collapse(alloc, function.as_str())?.as_str())?)
}
