//! The escapes in cells.
use crate::fault::Fault;
use std::alloc::Global;

/// The bytes that a cell stands for.
pub fn unescape(alloc: Global, cell: &str) -> Result<Vec<u8>, Fault> {
    let mut bytes = Vec::new(alloc);
    if cell == "\"\"" {
        return Ok(bytes);
    }
    let mut mark = 0;
    let mut is_escape = false;
    for piece in cell.split('\\') {
        if is_escape && piece.is_empty() {
            bytes.push(b'\\')?;
            is_escape = false;
        } else if is_escape {
            mark = escape(alloc, &mut bytes, mark, piece)?;
        } else {
            bytes.extend_from_slice(piece.as_bytes())?;
            is_escape = true;
        }
    }
    Ok(bytes)
}

/// Appends what an escape stands for and what follows it, and gives where a piece to be repeated begins.
fn escape(alloc: Global, bytes: &mut Vec<u8>, mark: usize, piece: &str) -> Result<usize, Fault> {
    let Some((letter, rest)) = piece.split_at_checked(1) else {
        return Err(unknown(piece));
    };
    match letter {
        "n" => push(bytes, b'\n', rest)?,
        "r" => push(bytes, b'\r', rest)?,
        "t" => push(bytes, b'\t', rest)?,
        "x" => push_hexadecimal(bytes, rest)?,
        "*" => repeat(alloc, bytes, mark, rest)?,
        "(" => {
            let mark = bytes.len();
            bytes.extend_from_slice(rest.as_bytes())?;
            return Ok(mark);
        }
        _ => return Err(unknown(piece)),
    }
    Ok(mark)
}

fn unknown(piece: &str) -> Fault {
    Fault::new(format_args!("no escape: \\{piece}"))
}

fn push(bytes: &mut Vec<u8>, byte: u8, rest: &str) -> Result<(), Fault> {
    bytes.push(byte)?;
    bytes.extend_from_slice(rest.as_bytes())?;
    Ok(())
}

fn push_hexadecimal(bytes: &mut Vec<u8>, rest: &str) -> Result<(), Fault> {
    let Some((digits, rest)) = rest.split_at_checked(2) else {
        return Err(unknown(rest));
    };
    push(bytes, u8::from_str_radix(digits, 16)?, rest)
}

/// Repeats the bytes from the mark on: `count` times in all.
fn repeat(alloc: Global, bytes: &mut Vec<u8>, mark: usize, rest: &str) -> Result<(), Fault> {
    let (count, rest) = rest.split_once(')').unwrap_or((rest, ""));
    let count = count.parse::<u32>()?;
    let piece = Vec::from_slice(alloc, bytes.get(mark..).unwrap_or(&[]))?;
    for _ in 1..count {
        bytes.extend_from_slice(piece.as_slice())?;
    }
    bytes.extend_from_slice(rest.as_bytes())?;
    Ok(())
}
