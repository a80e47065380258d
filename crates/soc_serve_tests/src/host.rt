//! The service over a listener in memory.
mod gates;
mod storms;

use crate::expect::{holds, same};
use soc_base::{Blobs, Bytes, NoMemory, Text};
use soc_collect::Tally;
use soc_edge::{BytesList, Ids16, MemClock, MemDisk, MemDraws, MemSink, MemTree, Numbers, World};
use soc_listen::{MemLink, MemListener};
use soc_serve::run_hall;
use soc_service::{Gate, OpenGate};
use soc_siglists::RegexMaker;
use std::alloc::Global;
use std::process::Abort;
use std::sync::Wait;
use std::test::Fail;
use std::thread::Threads;

const TOKENS: &[u8] =
    b"[[token]]\nkey = \"operator\"\nproducts = \"all\"\npermissions = [\"operate\"]\n";

const SUBMISSION: &[u8] =
    b"POST /submit HTTP/1.1\r\nHost: h\r\nContent-Type: multipart/form-data; boundary=b\r\nContent-Length: 75\r\n\r\n--b\r\nContent-Disposition: form-data; name=\"ProductName\"\r\n\r\nFirefox\r\n--b--\r\n";

const STOP: &[u8] =
    b"POST /control/stop HTTP/1.1\r\nHost: h\r\nAuth-Token: operator\r\nContent-Length: 0\r\n\r\n";

// A listener of these scripts, whose calls with these numbers fail.
fn listener(alloc: Global, scripts: &[&[u8]], fails: &[u64]) -> Result<MemListener, NoMemory> {
    let mut list = Vec::new(alloc);
    for script in scripts {
        list.push(Bytes::of(alloc, script)?)?;
    }
    let fails = Numbers::new(fails.to_vec(alloc)?);
    MemListener::new(alloc, BytesList::new(list), 4096, fails)
}

/// The words of a service with one collector and one processor.
const ONE: &[&str] = &["serve", "--collectors", "1", "--processors", "1"];

/// The words of a service with two of each.
const TWO: &[&str] = &["serve", "--collectors", "2", "--processors", "2"];

// What a run over a listener and an empty disk leaves.
#[derive(Drop)]
struct Ran {
    status: u8,
    listener: MemListener,
    output: MemSink,
    served: Tally<MemLink>,
}

// The words of a run, as the program takes them.
fn words_of(alloc: Global, words: &[&str]) -> Result<Vec<String>, NoMemory> {
    let mut list = Vec::new(alloc);
    for word in words {
        list.push(String::from_str(alloc, word)?)?;
    }
    Ok(list)
}

// A tree that has tokens alone.
fn tree(alloc: Global) -> Result<MemTree, NoMemory> {
    let mut files = Blobs::new(alloc);
    files.set(Text::of(alloc, "tokens.toml")?, Bytes::of(alloc, TOKENS)?)?;
    Ok(MemTree::new(files, Numbers::new(Vec::new(alloc))))
}

fn output(alloc: Global) -> Result<MemSink, NoMemory> {
    MemSink::new(alloc, 4096, Numbers::new(Vec::new(alloc)))
}

fn disk(alloc: Global) -> Result<MemDisk, NoMemory> {
    MemDisk::new(alloc, 1 << 20, 1000, Numbers::new(Vec::new(alloc)))
}

fn clock(alloc: Global) -> Result<MemClock, NoMemory> {
    let moments = [1_474_156_800u64].to_vec(alloc)?;
    Ok(MemClock::new(Numbers::new(moments)))
}

fn draws(alloc: Global) -> Result<MemDraws, NoMemory> {
    let draw = [
        0xDEu8, 0x1B, 0xB2, 0x58, 0xCB, 0xBF, 0x45, 0x89, 0xA6, 0x73, 0x34, 0xF8, 0, 0, 0, 0,
    ];
    Ok(MemDraws::new(
        Numbers::new([0u64].to_vec(alloc)?),
        Ids16::new([draw].to_vec(alloc)?),
    ))
}

// What a run has around it, but for its listener.
type MemWorld = World<MemTree, MemSink, MemDisk, MemClock, MemDraws, RegexMaker>;

fn new_world(alloc: Global) -> Result<MemWorld, NoMemory> {
    Ok(World {
        tree: tree(alloc)?,
        streams: output(alloc)?,
        disk: disk(alloc)?,
        clock: clock(alloc)?,
        draws: draws(alloc)?,
        maker: RegexMaker::new(),
    })
}

// What a run with these words over this listener and an empty disk leaves.
fn run_by<R: Threads + Wait + Sync, G: Gate + Sync>(
    rt: &R,
    alloc: Global,
    words: &[&str],
    listener: MemListener,
    gate: &G,
) -> Result<Ran, NoMemory> {
    let list = words_of(alloc, words)?;
    let mut world = new_world(alloc)?;
    let mut served = Tally::new();
    let (status, listener, _) = run_hall(
        rt,
        alloc,
        list.as_slice(),
        &mut world,
        listener,
        gate,
        &mut served,
    );
    Ok(Ran {
        status,
        listener,
        output: world.streams,
        served,
    })
}

// The same over a listener of these scripts, whose calls with these numbers fail, and with an open gate.
fn run<R: Threads + Wait + Sync>(
    rt: &R,
    alloc: Global,
    words: &[&str],
    scripts: &[&[u8]],
    fails: &[u64],
) -> Result<Ran, NoMemory> {
    let listener = listener(alloc, scripts, fails)?;
    run_by(rt, alloc, words, listener, &OpenGate)
}

// Whether a connection's reply ends with these bytes.
fn ends_with(listener: &MemListener, number: usize, body: &[u8]) -> bool {
    match listener.written(number) {
        Some(written) => written.ends_with(body),
        None => false,
    }
}

// Expects that a run answers this status, and writes this.
fn expect_end(rt: &impl Abort, ran: &Ran, status: u8, output: &[u8]) {
    same(rt, ran.status, status);
    same(rt, ran.output.bytes(), output);
}

const STORED: &[u8] = b"CrashID=bp-de1bb258-cbbf-4589-a673-34f800160918\n";

// Expects two connections that were served, of which the second was a stop, and a third that wasn't.
fn expect_stopped(rt: &impl Abort, ran: &Ran) {
    holds(rt, ends_with(&ran.listener, 0, STORED));
    holds(rt, ends_with(&ran.listener, 1, b"stopping\n"));
    holds(rt, !ends_with(&ran.listener, 2, b""));
    same(rt, ran.served.connections(), 2);
    same(rt, ran.served.kept(), 2);
    holds(rt, ran.served.stopped());
}

#[test]
fn a_stop_ends_the_service(rt: HostRuntime) -> Result<(), Fail> {
    let scripts = [SUBMISSION, STOP, SUBMISSION];
    let ran = run(&rt, rt.alloc(), ONE, &scripts, &[])?;
    expect_end(&rt, &ran, 0, b"crashes 1\nreports 1\n");
    expect_stopped(&rt, &ran);
    Ok(())
}

#[test]
fn a_listener_ends_the_service(rt: HostRuntime) -> Result<(), Fail> {
    let ran = run(&rt, rt.alloc(), ONE, &[SUBMISSION], &[])?;
    expect_end(&rt, &ran, 0, b"crashes 1\nreports 1\n");
    holds(&rt, !ran.served.stopped());
    Ok(())
}

#[test]
fn a_listener_that_fails_ends_the_service(rt: HostRuntime) -> Result<(), Fail> {
    let ran = run(&rt, rt.alloc(), ONE, &[SUBMISSION], &[0])?;
    expect_end(&rt, &ran, 6, b"crashes 0\nreports 0\n");
    same(&rt, ran.served.connections(), 0);
    Ok(())
}

// Expects one submission that was stored.
fn expect_stored(rt: &impl Abort, ran: &Ran) {
    holds(rt, ends_with(&ran.listener, 0, STORED));
    same(rt, ran.served.connections(), 1);
    same(rt, ran.served.kept(), 1);
}

#[test]
fn two_collectors_serve_beside_two_processors(rt: HostRuntime) -> Result<(), Fail> {
    let ran = run(&rt, rt.alloc(), TWO, &[SUBMISSION], &[])?;
    expect_end(&rt, &ran, 0, b"crashes 1\nreports 1\n");
    expect_stored(&rt, &ran);
    Ok(())
}

#[test]
fn a_stop_ends_two_collectors(rt: HostRuntime) -> Result<(), Fail> {
    let ran = run(&rt, rt.alloc(), TWO, &[STOP], &[])?;
    expect_end(&rt, &ran, 0, b"crashes 0\nreports 0\n");
    holds(&rt, ran.served.stopped());
    Ok(())
}

// Expects that nothing was served.
fn expect_refused(rt: &impl Abort, ran: &Ran) {
    same(rt, ran.status, 2);
    holds(rt, ran.output.bytes().starts_with(b"usage: "));
    holds(rt, !ends_with(&ran.listener, 0, b""));
    same(rt, ran.served.connections(), 0);
}

#[test]
fn another_calls_command_is_not_served(rt: HostRuntime) -> Result<(), Fail> {
    let ran = run(&rt, rt.alloc(), &["replay"], &[SUBMISSION], &[])?;
    expect_refused(&rt, &ran);
    Ok(())
}

#[test]
fn turns_of_four_collectors_that_change_nothing(rt: HostRuntime) -> Result<(), Fail> {
    let words = ["serve", "--collectors", "4", "--processors", "1"];
    let ran = run(&rt, rt.alloc(), &words, &[b"".as_slice(); 400], &[])?;
    expect_end(&rt, &ran, 0, b"crashes 0\nreports 0\n");
    same(&rt, ran.served.connections(), 400);
    same(&rt, ran.served.kept(), 0);
    Ok(())
}
