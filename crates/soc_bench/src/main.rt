//! Workloads that a bench times, each by its name. The program makes the objects and does the work on them. It prints what
//! the work counted, and to standard error how fast it went.
#![tactic(auto)]

mod bodies;
mod crashes;
mod dumps;
mod fault;
mod files;
mod hall;
mod harness;
mod kits;
mod lists;
mod made_dump;
mod numbers;
mod reports;
mod ring;
mod rows;
mod search;
mod signature;
mod symbol_text;
mod symbols;
mod together;
mod walks;

use fault::Fault;
use std::env;
use std::fs::File;
use std::process::ExitCode;
use std::rt::{Clock, Env, Files};
use std::sync::Wait;
use std::thread::Threads;
use std::time::CpuClock;

fn main(rt: HostRuntime) -> ExitCode {
    match run(&rt) {
        Ok(()) => ExitCode::SUCCESS,
        Err(fault) => {
            let _ = rt.eprintln(fault.as_str());
            ExitCode::from(fault.status())
        }
    }
}

/// Does the workload that the first word names. The words after it are the workload's own.
fn run<
    R: Env
        + Files<File = File>
        + Clock
        + CpuClock
        + Print
        + Eprint
        + AllocGlobal
        + Threads
        + Wait
        + Sync,
>(rt: &R) -> Result<(), Fault> {
    let mut words = Vec::new(rt.alloc());
    for word in env::args(rt)?.skip(1) {
        words.push(word)?;
    }
    match words.as_slice().split_first() {
        Some((workload, words)) => work(rt, workload.as_str(), words),
        None => Err(Fault::Words),
    }
}

fn work<
    R: Files<File = File> + Clock + CpuClock + Print + Eprint + AllocGlobal + Threads + Wait + Sync,
>(rt: &R, workload: &str, words: &[String]) -> Result<(), Fault> {
    match workload {
        "bodies" => bodies::run(rt, words),
        "symbols" => symbols::run(rt, words),
        "dump" => dumps::run(rt, words),
        "walk" => walks::run(rt, words),
        "report" => reports::run(rt, words),
        "signature" => signature::run(rt, words),
        "search" => search::run(rt, words),
        "hall" => hall::run(rt, words),
        "ring" => ring::run(rt, words),
        "together" => together::run(rt, words),
        _ => Err(Fault::Words),
    }
}
