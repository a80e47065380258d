//! Dumps made of the numbers of `dump.txt`, and of others that a row has.
use soc_tables::{Fault, Row, number_of, unescape};
use std::alloc::Global;

/// A line of `dump.txt`: where a number is, of how many bytes, or a text and how far its letters are apart.
#[derive(Clone, Copy)]
struct Place<'a> {
    place: usize,
    form: &'a str,
    value: &'a str,
}

fn place_of(line: &str) -> Result<(&str, Place<'_>), Fault> {
    let mut words = line.split_whitespace();
    let (Some(name), Some(place), Some(form), Some(value)) = (
        words.next(),
        words.next(),
        words.next(),
        words.next(),
    ) else {
        return Err(Fault::new(format_args!("dump.txt: {line}")));
    };
    let place = place.parse::<usize>()?;
    Ok((name, Place { place, form, value }))
}

/// Puts bytes into a dump, `step` places apart.
fn put(dump: &mut Vec<u8>, place: usize, step: usize, bytes: &[u8]) -> Result<(), Fault> {
    for (count, byte) in bytes.iter().enumerate() {
        let at = place.saturating_add(count.saturating_mul(step));
        if dump.len() <= at {
            dump.resize(at.saturating_add(1), 0)?;
        }
        if let Some(slot) = dump.get_mut(at) {
            *slot = *byte;
        }
    }
    Ok(())
}

fn put_number(dump: &mut Vec<u8>, place: usize, width: usize, number: u64) -> Result<(), Fault> {
    let bytes = number.to_le_bytes();
    put(dump, place, 1, bytes.get(..width).unwrap_or(&[]))
}

/// Puts a value into its place.
fn put_value(
    alloc: Global,
    dump: &mut Vec<u8>,
    place: Place<'_>,
    value: &str,
) -> Result<(), Fault> {
    match place.form {
        "ascii" => put(dump, place.place, 1, unescape(alloc, value)?.as_slice()),
        "utf-16" => put(dump, place.place, 2, unescape(alloc, value)?.as_slice()),
        width => put_number(
            dump,
            place.place,
            width.parse::<usize>()?,
            number_of(value)?,
        ),
    }
}

/// The dump of the layout's own values.
fn dump_as_laid_out(alloc: Global, layout: &str) -> Result<Vec<u8>, Fault> {
    let mut dump = Vec::new(alloc);
    for line in layout.lines() {
        if !line.is_empty() && !line.starts_with('#') {
            let (_, place) = place_of(line)?;
            put_value(alloc, &mut dump, place, place.value)?;
        }
    }
    Ok(dump)
}

/// Puts another value at a name of the layout.
fn set(
    alloc: Global,
    dump: &mut Vec<u8>,
    layout: &str,
    name: &str,
    value: &str,
) -> Result<(), Fault> {
    for line in layout.lines() {
        if line.split_whitespace().next() == Some(name) {
            let (_, place) = place_of(line)?;
            return put_value(alloc, dump, place, value);
        }
    }
    Err(Fault::new(format_args!("dump.txt has no {name}")))
}

fn set_number(
    alloc: Global,
    dump: &mut Vec<u8>,
    layout: &str,
    name: &str,
    number: usize,
) -> Result<(), Fault> {
    let number = format!(in alloc; "{number}")?;
    set(alloc, dump, layout, name, number.as_str())
}

/// Appends words, and gives their place.
fn put_words(dump: &mut Vec<u8>, width: usize, words: &str) -> Result<usize, Fault> {
    let place = dump.len();
    for word in words.split_whitespace() {
        let end = dump.len();
        put_number(dump, end, width, number_of(word)?)?;
    }
    Ok(place)
}

/// Appends a stack: the address where it begins, and its words.
fn put_stack(
    alloc: Global,
    dump: &mut Vec<u8>,
    layout: &str,
    width: usize,
    stack: &str,
) -> Result<(), Fault> {
    let (start, words) = stack.split_once(':').unwrap_or((stack, ""));
    let place = put_words(dump, width, words)?;
    let size = dump.len().saturating_sub(place);
    set(alloc, dump, layout, "stack_start", start)?;
    set_number(alloc, dump, layout, "stack_place", place)?;
    set_number(alloc, dump, layout, "stack_size", size)
}

/// Puts the numbers of a cell.
fn put_cell(
    alloc: Global,
    dump: &mut Vec<u8>,
    layout: &str,
    row: &Row<'_>,
    cell: &str,
) -> Result<(), Fault> {
    for item in row.items(alloc, cell)? {
        let (name, value) = item.as_str().split_once('=').unwrap_or((item.as_str(), ""));
        set(alloc, dump, layout, name, value)?;
    }
    Ok(())
}

/// Puts what a row has: its stack, and the numbers of its cells `base` and `numbers`.
fn put_row(alloc: Global, dump: &mut Vec<u8>, layout: &str, row: &Row<'_>) -> Result<(), Fault> {
    let width = row.cell("word")?.parse::<usize>()?;
    let stack = row.text(alloc, "stack")?;
    put_stack(alloc, dump, layout, width, stack.as_str())?;
    put_cell(alloc, dump, layout, row, "base")?;
    put_cell(alloc, dump, layout, row, "numbers")
}

/// The dump of a layout with what a row has.
pub fn dump_of(alloc: Global, layout: &str, row: &Row<'_>) -> Result<Vec<u8>, Fault> {
    let mut dump = dump_as_laid_out(alloc, layout)?;
    put_row(alloc, &mut dump, layout, row)?;
    Ok(dump)
}
