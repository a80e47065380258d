//! Tables of searches: fields, tokens and rows, stores of rows, and what searches and top crashers answer over them.
#![tactic(auto)]

mod fields;
mod queries;
mod randoms;
mod rows;
mod stores;
mod tokens;
mod tops;

use soc_tables::{Calls, Fault, Row, run};
use std::alloc::Global;
use std::process::ExitCode;

const FILES: [&str; 4] = ["schema.txt", "stores.txt", "queries.txt", "tops.txt"];

struct Searches;

impl Calls for Searches {
    fn call(&self, alloc: Global, name: &str, row: &Row<'_>) -> Result<String, Fault> {
        match name {
            "field" => fields::field(alloc, row),
            "named" => fields::named(alloc, row),
            "tokens" => tokens::tokens(alloc, row),
            "caller" => tokens::caller(alloc, row),
            "row" => rows::row(alloc, row),
            "row_fronts" => rows::fronts(alloc, row),
            "processed" => rows::processed(alloc, row),
            "store" => stores::store(alloc, row),
            "random_store" => randoms::store(alloc, row),
            "filtered" => randoms::filtered(alloc, row),
            "query" => queries::query(alloc, row),
            "hits" => queries::hits(alloc, row),
            "total" => queries::total(alloc, row),
            "facets" => queries::facets(alloc, row),
            "answer" => queries::answer(alloc, row),
            "tops_query" => tops::query(alloc, row),
            "tops" => tops::tops(alloc, row),
            _ => Err(Fault::new(format_args!("no call {name}"))),
        }
    }
}

fn main(rt: HostRuntime) -> ExitCode {
    run(&rt, &Searches, &FILES)
}
