//! Tables of what the readers give and of what stands in memory for the outside: crash ids, records, keys of TOML, messages,
//! bodies, forms, minidumps, symbol files, sources, sinks and disks.
#![tactic(auto)]

mod bodies;
mod disks;
mod dumps;
mod forms;
mod keys;
mod messages;
mod pieces;
mod raws;
mod stand_ins;
mod symbols;

use soc_tables::{Calls, Fault, Row, run};
use std::alloc::Global;
use std::process::ExitCode;

const FILES: [&str; 8] = [
    "raws.txt",
    "keys.txt",
    "messages.txt",
    "bodies.txt",
    "forms.txt",
    "dumps.txt",
    "symbols.txt",
    "stand_ins.txt",
];

struct Formats;

impl Calls for Formats {
    fn call(&self, alloc: Global, name: &str, row: &Row<'_>) -> Result<String, Fault> {
        match name {
            "id" => raws::id(alloc, row),
            "parse" => raws::parse(alloc, row),
            "day" => raws::day(alloc, row),
            "record" => raws::record(alloc, row),
            "fronts" => raws::fronts(alloc, row),
            "cursor" => raws::cursor(alloc, row),
            "list" => raws::list(alloc, row),
            "key" => keys::key(alloc, row),
            "other_key" => keys::other_key(alloc, row),
            "read" => messages::read(alloc, row),
            "pieces" => messages::pieces(alloc, row),
            "reply" => messages::reply(alloc, row),
            "route" => messages::route(alloc, row),
            "query" => messages::query(alloc, row),
            _ => body_call(alloc, name, row),
        }
    }
}

/// Calls on bodies and files.
fn body_call(alloc: Global, name: &str, row: &Row<'_>) -> Result<String, Fault> {
    match name {
        "parts" => bodies::parts(alloc, row),
        "part_fronts" => bodies::fronts(alloc, row),
        "almost" => bodies::almost(alloc, row),
        "random" => bodies::random(alloc, row),
        "fed" => pieces::fed(alloc, row),
        "form" => forms::form(alloc, row),
        "dump" => dumps::dump(alloc, row),
        "asked" => dumps::asked(alloc, row),
        "first" => dumps::first(alloc, row),
        "interval" => dumps::interval(alloc, row),
        "x86" => dumps::x86(alloc, row),
        "debug" => dumps::debug(alloc, row),
        "named" => dumps::named(alloc, row),
        "symbols" => symbols::symbols(alloc, row),
        "found" => symbols::found(alloc, row),
        "rules" => symbols::rules(alloc, row),
        "path" => symbols::path(alloc, row),
        "is_path" => symbols::is_path(alloc, row),
        _ => stand_in_call(alloc, name, row),
    }
}

fn stand_in_call(alloc: Global, name: &str, row: &Row<'_>) -> Result<String, Fault> {
    match name {
        "source" => stand_ins::source(alloc, row),
        "sink" => stand_ins::sink(alloc, row),
        "link" => stand_ins::link(alloc, row),
        "clock" => stand_ins::clock(alloc, row),
        "draws" => stand_ins::draws(alloc, row),
        "bytes" => stand_ins::list(alloc, row),
        "tree" => stand_ins::tree(alloc, row),
        "steps" => stand_ins::steps(alloc, row),
        "disk" => disks::disk(alloc, row),
        "ahead" => disks::ahead(alloc, row),
        _ => Err(Fault::new(format_args!("no call {name}"))),
    }
}

fn main(rt: HostRuntime) -> ExitCode {
    run(&rt, &Formats, &FILES)
}
