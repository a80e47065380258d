//! Tables of what the program reads and answers: settings, tokens, throttle rules, arguments, made crashes, pages and
//! sessions.
#![tactic(auto)]

mod drip;
mod ordered;
mod pages;
mod rules;
mod runs;
mod sample;
mod sessions;
mod settings;
mod texts;
mod watched;
mod words;

use soc_tables::{Calls, Fault, Row, run};
use std::alloc::Global;
use std::fs;
use std::process::ExitCode;

const FILES: [&str; 6] = [
    "settings.txt",
    "rules.txt",
    "words.txt",
    "pages.txt",
    "sessions.txt",
    "routes.txt",
];

#[derive(Drop)]
struct SessionCalls {
    /// What `texts.txt` holds.
    texts: String,
}

impl Calls for SessionCalls {
    fn call(&self, alloc: Global, name: &str, row: &Row<'_>) -> Result<String, Fault> {
        let texts = self.texts.as_str();
        match name {
            "refusal" => settings::refusal(alloc, row),
            "limits" => settings::limits(alloc, row),
            "decides" => settings::decides(alloc, row),
            "tokens" => settings::tokens(alloc, row),
            "read" => rules::read(alloc, row),
            "verdict" => rules::verdict(alloc, row),
            "words" => words::words(alloc, row),
            "crash" => words::crash(alloc, row),
            "make" => words::made(alloc, row),
            "report" => pages::report(alloc, row),
            "search" => pages::search(alloc, row),
            "tops" => pages::tops(alloc, row),
            "session" => sessions::session_of(alloc, texts, row),
            "cuts" => sessions::cuts(alloc, texts, row),
            "pieces" => sessions::pieces(alloc, texts, row),
            "faults" => sessions::faults(alloc, texts, row),
            "in_time" => sessions::in_time(alloc, texts, row),
            "draws" => sessions::draws(alloc, texts, row),
            "route" => sessions::route(alloc, texts, row),
            _ => Err(Fault::new(format_args!("no call {name}"))),
        }
    }
}

fn main(rt: HostRuntime) -> ExitCode {
    match fs::read_to_string(&rt, "texts.txt") {
        Ok(texts) => run(&rt, &SessionCalls { texts }, &FILES),
        Err(error) => {
            let _ = rt.eprintln(error);
            ExitCode::from(2)
        }
    }
}
