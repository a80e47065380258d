//! Tables of journals and vaults: what is written and read back, what a refused call leaves, and what a stop does.
#![tactic(auto)]

mod disks;
mod entries;
mod journals;
mod openings;
mod spoilt;
mod vaults;

use soc_tables::{Calls, Fault, Row, run};
use std::alloc::Global;
use std::process::ExitCode;

const FILES: [&str; 2] = ["journals.txt", "vaults.txt"];

struct JournalCalls;

impl Calls for JournalCalls {
    fn call(&self, alloc: Global, name: &str, row: &Row<'_>) -> Result<String, Fault> {
        match name {
            "crash_entry" => entries::crash_entry(alloc, row),
            "journal" => journals::journal(alloc, row),
            "torn" => journals::torn(alloc, row),
            "opening" => openings::opening(alloc, row),
            "bodies" => vaults::bodies(alloc, row),
            "vault" => vaults::vault(alloc, row),
            "zeroed" => vaults::zeroed(alloc, row),
            "one_pass" => vaults::one_pass(alloc, row),
            _ => Err(Fault::new(format_args!("no call {name}"))),
        }
    }
}

fn main(rt: HostRuntime) -> ExitCode {
    run(&rt, &JournalCalls, &FILES)
}
