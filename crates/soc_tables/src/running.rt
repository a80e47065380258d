//! A run over files of tables.
ghost use Rattle.std.specs.Prelude.{◌≡◌};
ghost use Rattle.std.specs.Str.{bytes_eq};

use crate::fault::Fault;
use crate::lines::{Line, lines_of};
use crate::row::Row;
use std::alloc::Global;
use std::fs;
use std::process::ExitCode;
use std::rt::Files;

/// How many of a table's rows that differ are printed.
const MOST_PRINTED: u64 = 3;

/// The calls of a program's tables.
pub trait Calls {
    /// What the call of this name gives for a row, as a text.
    fn call(&self, alloc: Global, name: &str, row: &Row<'_>) -> Result<String, Fault>;
}

/// Makes the call of each row of these files. For each table a line on standard output says how many rows it has and how
/// many of them differ. Rows that differ go to standard error, with what their calls gave. The status is 1 where a row
/// differs, and 2 where a file can't be read.
pub fn run<R: Files + Print + Eprint + AllocGlobal, C: Calls>(
    rt: &R,
    calls: &C,
    files: &[&str],
) -> ExitCode {
    match run_files(rt, calls, files) {
        Ok(0) => ExitCode::SUCCESS,
        Ok(_) => ExitCode::from(1),
        Err(fault) => {
            let _ = rt.eprintln(fault.as_str());
            ExitCode::from(2)
        }
    }
}

/// Counts the rows that differ.
fn run_files<R: Files + Print + Eprint + AllocGlobal, C: Calls>(
    rt: &R,
    calls: &C,
    files: &[&str],
) -> Result<u64, Fault> {
    let mut differ = 0u64;
    for file in files {
        let bytes = fs::read(rt, *file)?;
        let lines = lines_of(rt.alloc(), str::from_utf8(&bytes)?)?;
        differ = differ.saturating_add(run_lines(rt, calls, file, lines.as_slice())?);
    }
    Ok(differ)
}

/// A table so far.
#[derive(Drop)]
struct Table {
    head: String,
    rows: u64,
    differ: u64,
}

fn table_of(alloc: Global, head: &str) -> Result<Table, Fault> {
    Ok(Table {
        head: String::from_str(alloc, head)?,
        rows: 0,
        differ: 0,
    })
}

fn run_lines<R: Print + Eprint + AllocGlobal, C: Calls>(
    rt: &R,
    calls: &C,
    file: &str,
    lines: &[Line],
) -> Result<u64, Fault> {
    let mut differ = 0u64;
    let mut table = table_of(rt.alloc(), "")?;
    for line in lines {
        match line.text.as_str().strip_prefix("== ") {
            Some(head) => {
                print(rt, &table)?;
                differ = differ.saturating_add(table.differ);
                table = table_of(rt.alloc(), head)?;
            }
            None => {
                let is = is_as_wanted(rt, calls, file, &table, line)?;
                table.rows = table.rows.saturating_add(1);
                table.differ = table.differ.saturating_add(u64::from(!is));
            }
        }
    }
    print(rt, &table)?;
    Ok(differ.saturating_add(table.differ))
}

/// Prints how many rows a table has.
fn print<R: Print>(rt: &R, table: &Table) -> Result<(), Fault> {
    let head = table.head.as_str();
    let (title, _) = head.split_once(": ").unwrap_or((head, ""));
    let rows = table.rows;
    match table.differ {
        _ if rows == 0 => (),
        0 => println!(rt; "{title}: {rows} rows")?,
        differ => println!(rt; "{title}: {differ} of {rows} rows differ")?,
    }
    Ok(())
}

/// Makes the call of a row, and prints the row where it gives something else.
fn is_as_wanted<R: Eprint + AllocGlobal, C: Calls>(
    rt: &R,
    calls: &C,
    file: &str,
    table: &Table,
    line: &Line,
) -> Result<bool, Fault> {
    let (name, row) = Row::of(table.head.as_str(), line.text.as_str());
    let found = found_by(rt.alloc(), calls, name, &row)?;
    let is = is_same(found.as_str(), row.wanted(rt.alloc())?.as_slice());
    if !is && table.differ < MOST_PRINTED {
        eprintln!(rt;
            "{}, line {}: {}\n  gives {:?}",
            file,
            line.number,
            line.text.as_str(),
            found.as_str()
        )?;
    }
    Ok(is)
}

/// What a call gives, or why it gives nothing.
fn found_by<C: Calls>(
    alloc: Global,
    calls: &C,
    name: &str,
    row: &Row<'_>,
) -> Result<String, Fault> {
    if !row.is_whole() {
        return Ok(String::from_str(alloc, "other cells than columns")?);
    }
    match calls.call(alloc, name, row) {
        Ok(found) => Ok(found),
        Err(fault) => Ok(String::from_str(alloc, fault.as_str())?),
    }
}

fn is_same(found: &str, want: &[u8]) -> bool
    ensures { result ≡ bytes_eq found.now want.now }
{
    found.as_bytes() == want
}
