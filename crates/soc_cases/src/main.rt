//! Plays the cases of `cases.toml`, whole runs of the program over objects in memory, and prints of each whether it left
//! what its case says. The first lines of that file say what a case holds.
#![tactic(auto)]

mod case;
mod fault;
mod known;
mod lives;
mod memory;
mod play;
mod sweep;
mod tell;

use case::array_of;
use fault::Fault;
use lives::follow;
use play::{Left, play};
use soc_toml::value_at;
use std::alloc::Global;
use std::fs;
use std::process::ExitCode;
use std::rt::Files;
use sweep::sweep;
use tell::tell;
use toml::{Table, Value};

const CASES: &str = "cases.toml";

fn main(rt: HostRuntime) -> ExitCode {
    match play_all(&rt) {
        Ok(()) => ExitCode::SUCCESS,
        Err(fault) => {
            let _ = rt.eprintln(fault);
            ExitCode::from(1)
        }
    }
}

fn play_all<R: Files + Print + AllocGlobal>(rt: &R) -> Result<(), Fault> {
    let document = read_document(rt)?;
    play_cases(rt, &document)
}

/// Plays the cases in order.
fn play_cases<R: Print + AllocGlobal>(rt: &R, document: &Table) -> Result<(), Fault> {
    let mut before = None;
    for case in array_of(document, "case")? {
        before = play_next(rt, document, case, before)?;
    }
    Ok(())
}

/// Plays a case behind the one before, and gives what it leaves for the next.
fn play_next<R: Print + AllocGlobal>(
    rt: &R,
    document: &Table,
    case: &Value,
    before: Option<Left>,
) -> Result<Option<Left>, Fault> {
    match case.as_table() {
        None => Err(Fault::Wrong("case")),
        Some(case) if value_at(case, "calls").is_some() => sweep(rt, document, case).map(|_| None),
        Some(case) if value_at(case, "seeds").is_some() => follow(rt, document, case).map(|_| None),
        Some(case) => play_and_tell(rt, document, case, before),
    }
}

/// Plays a case and tells whether it left what it says.
fn play_and_tell<R: Print + AllocGlobal>(
    rt: &R,
    document: &Table,
    case: &Table,
    before: Option<Left>,
) -> Result<Option<Left>, Fault> {
    let left = play(rt.alloc(), document, case, before)?;
    tell(rt, document, case, &left)?;
    Ok(Some(left))
}

fn read_document<R: Files + AllocGlobal>(rt: &R) -> Result<Table, Fault> {
    let bytes = fs::read(rt, CASES)?;
    match str::from_utf8(&bytes) {
        Ok(text) => parse(rt.alloc(), text),
        Err(_) => Err(Fault::Wrong("UTF-8")),
    }
}

fn parse(alloc: Global, text: &str) -> Result<Table, Fault> {
    match toml::table_from_str(alloc, text) {
        Ok(table) => Ok(table),
        Err(error) if error.is_memory() => Err(Fault::NoMemory),
        Err(_) => Err(Fault::Wrong("TOML")),
    }
}
