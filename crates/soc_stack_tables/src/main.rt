//! Tables of what a report is made of: frame texts, lists, signatures, walks, and the reports themselves.
#![tactic(auto)]

mod dump;
mod frames;
mod lists;
mod reports;
mod signatures;
mod steps;
mod walks;

use soc_tables::{Calls, Fault, Row, run};
use std::alloc::Global;
use std::fs;
use std::process::ExitCode;

const FILES: [&str; 6] = [
    "frames.txt",
    "lists.txt",
    "signatures.txt",
    "steps.txt",
    "walks.txt",
    "reports.txt",
];

#[derive(Drop)]
struct Stack {
    /// What `dump.txt` holds.
    layout: String,
}

impl Calls for Stack {
    fn call(&self, alloc: Global, name: &str, row: &Row<'_>) -> Result<String, Fault> {
        match name {
            "frame" => frames::frame(alloc, row),
            "rust" => frames::rust(alloc, row),
            "without_type" => frames::without_type(alloc, row),
            "collapsed" => frames::collapsed(alloc, row),
            "matches" => lists::matches(alloc, row),
            "lists" => lists::lists(alloc, row),
            "makes" => lists::makes(alloc, row),
            "sentinel" => lists::sentinel(alloc, row),
            "matchers" => lists::matchers(alloc, row),
            "signature" => signatures::signature_of(alloc, row),
            "shutdown" => signatures::shutdown(alloc, row),
            "step" => steps::step(alloc, row),
            "arm64" => steps::arm64(alloc, row),
            "context" => steps::context(alloc, row),
            "walk" => walks::walk_of(alloc, self.layout.as_str(), row),
            "kit" => reports::kit(alloc, row),
            "digest" => reports::digest(alloc, row),
            "report" => reports::report(alloc, self.layout.as_str(), row),
            "stack" => reports::stack(alloc, self.layout.as_str(), row),
            _ => Err(Fault::new(format_args!("no call {name}"))),
        }
    }
}

fn main(rt: HostRuntime) -> ExitCode {
    match fs::read_to_string(&rt, "dump.txt") {
        Ok(layout) => run(&rt, &Stack { layout }, &FILES),
        Err(error) => {
            let _ = rt.eprintln(error);
            ExitCode::from(2)
        }
    }
}
