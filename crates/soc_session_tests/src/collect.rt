//! Worked rows: connections served one after another, at a desk that keeps nothing.
ghost use Rattle.std.specs.Prelude.{◌≡◌};

mod booth;

use self::booth::Booth;
use crate::expect::{holds, same};
use soc_base::Bytes;
use soc_collect::*;
use soc_edge::{BytesList, Ids16, MemClock, MemDraws, Numbers};
use soc_http::{Buffer, Routes};
use soc_listen::{Listener, MemLink, MemListener};
use soc_schema::{Bare, Products, Tokens};
use soc_session::{Rules, SessionEnd, Setting};
use soc_throttle::RuleSet;
use std::alloc::Global;
use std::marker::Brand;
use std::process::Abort;
use std::sync::ledger::{Blank, Ledger};
use std::sync::{Mutex, Wait};
use std::test::Fail;

const TOKENS: &str = r#"
[[token]]
key = "operator"
products = "all"
permissions = ["operate"]
"#;

const NO_ROUTE: &[u8] = b"GET / HTTP/1.1\r\nHost: h\r\n\r\n";

const STOP: &[u8] =
    b"POST /control/stop HTTP/1.1\r\nHost: h\r\nAuth-Token: operator\r\nContent-Length: 0\r\n\r\n";

fn rules(alloc: Global) -> Result<Rules, Fail> {
    let table = toml::table_from_str(alloc, TOKENS)?;
    Ok(Rules {
        rules: RuleSet::accept_all(alloc)?,
        tokens: Tokens::read(alloc, &toml::Value::Table(table))?,
        public: Products::All,
        session_bytes: 100_000,
        page: None,
        version: None,
    })
}

// A listener of these scripts, each connection with so much room, whose calls with these numbers fail.
fn listener(
    alloc: Global,
    scripts: &[&[u8]],
    room: usize,
    fails: &[u64],
) -> Result<MemListener, Fail> {
    let mut list = Vec::new(alloc);
    for script in scripts {
        list.push(Bytes::of(alloc, script)?)?;
    }
    let fails = Numbers::new(fails.to_vec(alloc)?);
    Ok(MemListener::new(alloc, BytesList::new(list), room, fails)?)
}

// How connections of these scripts end, each with so much room, and what is left of the listener.
#[derive(Drop)]
struct Served {
    listener: MemListener,
    served: Tally<MemLink>,
    ends: Vec<Option<SessionEnd>>,
}

// What a collector has around it, but for its listener and its desk.
#[derive(Drop)]
struct Around {
    rules: Rules,
    routes: Routes,
    buffer: Buffer,
    clock: MemClock,
    draws: MemDraws,
}

fn clock(alloc: Global) -> Result<MemClock, Fail> {
    Ok(MemClock::new(Numbers::new(vec![in alloc; 1_474_156_800]?)))
}

fn draws(alloc: Global) -> Result<MemDraws, Fail> {
    Ok(MemDraws::new(
        Numbers::new(vec![in alloc; 0]?),
        Ids16::new(vec![in alloc; [0; 16]]?),
    ))
}

fn surroundings(alloc: Global) -> Result<Around, Fail> {
    Ok(Around {
        rules: rules(alloc)?,
        routes: Routes::new(alloc)?,
        buffer: Buffer::new(alloc)?,
        clock: clock(alloc)?,
        draws: draws(alloc)?,
    })
}

// How the next connection ends.
fn serve_next(
    alloc: Global,
    listener: &mut MemListener,
    desk: &mut Booth,
    served: &mut Tally<MemLink>,
    around: &mut Around,
) -> Result<Option<SessionEnd>, Fail> {
    if served.connections() >= 10 || served.kept() >= 1_000 {
        return Err(Fail::from("too many"));
    }
    let Ok(Some(conn)) = listener.accept() else {
        return Err(Fail::from("no connection"));
    };
    let setting = Setting {
        alloc,
        rules: &around.rules,
        routes: &around.routes,
        stacks: &Bare,
    };
    let shut = serve_one(
        &setting,
        desk,
        served,
        conn,
        &mut around.buffer,
        &mut around.clock,
        &mut around.draws,
    );
    Ok(shut.end())
}

fn serve_all(alloc: Global, scripts: &[&[u8]], room: usize) -> Result<Served, Fail> {
    let mut listener = listener(alloc, scripts, room, &[])?;
    let mut around = surroundings(alloc)?;
    let mut desk = Booth::new();
    let mut served = Tally::new();
    let mut ends = Vec::new(alloc);
    for _ in scripts {
        let end = serve_next(alloc, &mut listener, &mut desk, &mut served, &mut around)?;
        ends.push(end)?;
    }
    Ok(Served {
        listener,
        served,
        ends,
    })
}

// Expects so many connections and commands, and whether the desk was stopped.
fn expect_served(rt: &impl Abort, served: &Tally<MemLink>, want: (u64, u64, bool)) {
    same(rt, served.connections(), want.0);
    same(rt, served.kept(), want.1);
    same(rt, served.stopped(), want.2);
}

// Expects a reply that begins with this on the first connection, and none on the second.
fn expect_replies(rt: &impl Abort, listener: &MemListener, first: &[u8]) {
    holds(
        rt,
        listener
            .written(0)
            .is_some_and(|text| text.starts_with(first)),
    );
    same(rt, listener.written(1), Some(b"".as_slice()));
}

fn expect_ends(rt: &impl Abort, all: &Served, want: &[Option<SessionEnd>]) {
    same(rt, all.ends.as_slice(), want);
}

#[test]
fn each_connection_is_counted(rt: HostRuntime) -> Result<(), Fail> {
    let all = serve_all(rt.alloc(), &[NO_ROUTE, b"", NO_ROUTE], 4_096)?;
    expect_ends(&rt, &all, &[Some(SessionEnd::Ended); 3]);
    expect_served(&rt, &all.served, (3, 3, false));
    expect_replies(&rt, &all.listener, b"HTTP/1.1 404 ");
    Ok(())
}

#[test]
fn connections_after_a_stop_stay_unread(rt: HostRuntime) -> Result<(), Fail> {
    let all = serve_all(rt.alloc(), &[STOP, NO_ROUTE], 4_096)?;
    expect_ends(&rt, &all, &[Some(SessionEnd::Stopped), None]);
    expect_served(&rt, &all.served, (2, 3, true));
    expect_replies(&rt, &all.listener, b"HTTP/1.1 200 ");
    Ok(())
}

#[test]
fn a_stop_whose_reply_is_not_written_counts(rt: HostRuntime) -> Result<(), Fail> {
    let all = serve_all(rt.alloc(), &[STOP], 4)?;
    expect_ends(&rt, &all, &[Some(SessionEnd::WriteFault)]);
    holds(&rt, all.served.stopped());
    same(&rt, all.listener.written(0), Some(b"HTTP".as_slice()));
    Ok(())
}

// The counts of two collectors, put together.
fn together(alloc: Global) -> Result<Tally<MemLink>, Fail> {
    let first = serve_all(alloc, &[NO_ROUTE, NO_ROUTE], 4_096)?;
    let second = serve_all(alloc, &[STOP], 4_096)?;
    let mut all = first.served;
    let more = second.served;
    if all.connections() > 10 || more.connections() > 10 || all.kept() > 10 || more.kept() > 10 {
        return Err(Fail::from("too many"));
    }
    all.add(more);
    Ok(all)
}

#[test]
fn counts_are_put_together(rt: HostRuntime) -> Result<(), Fail> {
    let all = together(rt.alloc())?;
    expect_served(&rt, &all, (3, 4, true));
    Ok(())
}

// What one collector served, and whether the listener failed.
#[derive(Drop)]
struct Collected {
    served: Tally<MemLink>,
    failed: bool,
}

fn collect_alone<N: Ledger, M: Ledger, J: Naming, R: Wait>(
    rt: &R,
    alloc: Global,
    listener: MemListener,
    handed: Blank,
    refused: Blank,
) -> Result<Collected, Fail>
    requires listener { ⟦<MemListener as Listener>⟧.told listener ≡ J.opened }
    requires names { (handed.name ≡ N.name) × (refused.name ≡ M.name) }
    requires parts { (handed.parts ≡ N.parts) × (refused.parts ≡ M.parts) }
    requires one { (handed.parts ≡ 1) × (refused.parts ≡ 1) }
{
    let Around {
        rules,
        routes,
        mut buffer,
        clock,
        draws,
    } = surroundings(alloc)?;
    let (door, mut ticket): (Door<MemListener, N, M, J>, Ticket<N, M>) = Door::open(
        listener, handed, refused,
    );
    let shared = Shared {
        door: Mutex::new(door),
        clock: Mutex::new(clock),
        draws: Mutex::new(draws),
    };
    let setting = Setting {
        alloc,
        rules: &rules,
        routes: &routes,
        stacks: &Bare,
    };
    let mut desk = Booth::new();
    let mut served = Tally::new();
    collect(
        rt,
        &setting,
        &mut desk,
        &mut served,
        &mut ticket,
        &mut buffer,
        &shared,
    );
    let (_listener, failed) = shared.door.into_inner().close(&mut ticket);
    Ok(Collected { served, failed })
}

// The same over ledgers of this call.
fn collected_alone<R: Wait>(
    rt: &R,
    alloc: Global,
    listener: MemListener,
) -> Result<Collected, Fail> {
    collect_alone::<Brand, Brand, Brand, R>(rt, alloc, listener, Blank::new(1), Blank::new(1))
}

// The same over a listener of these scripts, whose calls with these numbers fail.
fn collected_from<R: Wait>(
    rt: &R,
    alloc: Global,
    scripts: &[&[u8]],
    fails: &[u64],
) -> Result<Collected, Fail> {
    collected_alone(rt, alloc, listener(alloc, scripts, 4_096, fails)?)
}

#[test]
fn a_collector_goes_on_until_the_stop(rt: HostRuntime) -> Result<(), Fail> {
    let both = collected_from(&rt, rt.alloc(), &[NO_ROUTE, STOP], &[])?;
    expect_served(&rt, &both.served, (2, 3, true));
    holds(&rt, !both.failed);
    Ok(())
}

#[test]
fn a_collector_takes_none_after_the_stop(rt: HostRuntime) -> Result<(), Fail> {
    let one = collected_from(&rt, rt.alloc(), &[STOP, NO_ROUTE], &[])?;
    same(&rt, one.served.connections(), 1);
    Ok(())
}

#[test]
fn a_collector_goes_on_until_no_connection_comes(rt: HostRuntime) -> Result<(), Fail> {
    let both = collected_from(&rt, rt.alloc(), &[NO_ROUTE, b""], &[])?;
    same(&rt, both.served.connections(), 2);
    holds(&rt, !both.served.stopped());
    holds(&rt, !both.failed);
    Ok(())
}

#[test]
fn a_collector_ends_where_its_listener_fails(rt: HostRuntime) -> Result<(), Fail> {
    let one = collected_from(&rt, rt.alloc(), &[NO_ROUTE, NO_ROUTE], &[1])?;
    same(&rt, one.served.connections(), 1);
    holds(&rt, one.failed);
    Ok(())
}
