//! One row of a table.
use crate::escapes::unescape;
use crate::fault::Fault;
use std::alloc::Global;

/// A row of a table.
#[derive(Clone, Copy, Debug)]
pub struct Row<'a> {
    columns: &'a str,
    shared: &'a str,
    cells: &'a str,
    want: &'a str,
}

impl<'a> Row<'a> {
    /// The row of a line under a head, and the call that is made.
    pub fn of(head: &'a str, line: &'a str) -> (&'a str, Row<'a>) {
        let (_, call) = head.split_once(": ").unwrap_or(("", head));
        let (call, shared) = call.split_once(" where ").unwrap_or((call, ""));
        let (call, columns) = call.split_once('(').unwrap_or((call, ""));
        let (columns, _) = columns.split_once(')').unwrap_or((columns, ""));
        let (cells, want) = line.split_once(" => ").unwrap_or((line, ""));
        let row = Row {
            columns,
            shared,
            cells,
            want,
        };
        (call, row)
    }

    /// Whether it has as many cells as its table has columns.
    pub fn is_whole(&self) -> bool {
        self.columns.split(',').count() == self.cells.split(" | ").count()
    }

    /// What a column's cell holds, with its escapes.
    pub fn cell(&self, name: &str) -> Result<&'a str, Fault> {
        for (column, cell) in self.columns.split(',').zip(self.cells.split(" | ")) {
            if column.trim() == name {
                return Ok(cell.trim());
            }
        }
        for shared in self.shared.split(" | ") {
            if let Some((column, cell)) = shared.split_once(" = ") {
                if column.trim() == name {
                    return Ok(cell.trim());
                }
            }
        }
        Err(Fault::new(format_args!("no column {name}")))
    }

    /// The bytes of a column's cell.
    pub fn bytes(&self, alloc: Global, name: &str) -> Result<Vec<u8>, Fault> {
        unescape(alloc, self.cell(name)?)
    }

    /// The text of a column's cell.
    pub fn text(&self, alloc: Global, name: &str) -> Result<String, Fault> {
        Ok(String::from_utf8(self.bytes(alloc, name)?)?)
    }

    /// The text of a column's cell, or nothing.
    pub fn optional(&self, alloc: Global, name: &str) -> Result<Option<String>, Fault> {
        match self.cell(name)? {
            "-" => Ok(None),
            _ => Ok(Some(self.text(alloc, name)?)),
        }
    }

    /// The number of a column's cell, in decimal, or in hexadecimal after `0x`.
    pub fn number(&self, name: &str) -> Result<u64, Fault> {
        number_of(self.cell(name)?)
    }

    /// The numbers that are the items of a column's cell.
    pub fn numbers(&self, alloc: Global, name: &str) -> Result<Vec<u64>, Fault> {
        let mut numbers = Vec::new(alloc);
        let cell = self.cell(name)?;
        if cell != "-" {
            for item in cell.split(';') {
                numbers.push(number_of(item.trim())?)?;
            }
        }
        Ok(numbers)
    }

    /// The texts of the items of a column's cell.
    pub fn items(&self, alloc: Global, name: &str) -> Result<Vec<String>, Fault> {
        let mut items = Vec::new(alloc);
        let cell = self.cell(name)?;
        if cell != "-" {
            for item in cell.split(';') {
                items.push(String::from_utf8(unescape(alloc, item.trim())?)?)?;
            }
        }
        Ok(items)
    }

    /// What is wanted.
    pub fn wanted(&self, alloc: Global) -> Result<Vec<u8>, Fault> {
        unescape(alloc, self.want.trim())
    }

    /// What is wanted, where its parts, separated by ` .. `, stand in a text one after another; else the text.
    pub fn within(&self, alloc: Global, text: &str) -> Result<String, Fault> {
        let mut rest = text;
        for part in self.want.split(" .. ") {
            match rest.split_once(part.trim()) {
                Some((_, after)) => rest = after,
                None => return Ok(String::from_str(alloc, text)?),
            }
        }
        Ok(String::from_utf8(self.wanted(alloc)?)?)
    }
}

/// A number in decimal, or in hexadecimal after `0x`.
pub fn number_of(text: &str) -> Result<u64, Fault> {
    match text.strip_prefix("0x") {
        Some(digits) => Ok(u64::from_str_radix(digits, 16)?),
        None => Ok(text.parse::<u64>()?),
    }
}
