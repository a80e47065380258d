//! Tables of ledgers and desks: what is asked in order and what is answered, over disks in memory that fail and stop.
#![tactic(auto)]

mod acts;
mod asks;
mod books;
mod ledgers;
mod lost;
mod replies;
mod reporters;
mod sweeps;

use soc_tables::{Calls, Fault, Row, run};
use std::alloc::Global;
use std::process::ExitCode;

const FILES: [&str; 2] = ["ledgers.txt", "books.txt"];

struct Desks;

impl Calls for Desks {
    fn call(&self, alloc: Global, name: &str, row: &Row<'_>) -> Result<String, Fault> {
        match name {
            "ledger" => ledgers::ledger(alloc, row),
            "many" => ledgers::many(alloc, row),
            "book" => books::book(alloc, row),
            "receipts" => books::book_receipts(alloc, row),
            "together" => books::together(alloc, row),
            "lives" => books::lives(alloc, row),
            "thrice" => books::thrice(alloc, row),
            "sweep" => sweeps::sweep(alloc, row),
            "zeroed" => books::over_zeros(alloc, row),
            _ => Err(Fault::new(format_args!("no call {name}"))),
        }
    }
}

fn main(rt: HostRuntime) -> ExitCode {
    run(&rt, &Desks, &FILES)
}
