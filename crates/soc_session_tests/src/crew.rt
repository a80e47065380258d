//! A crew over a listener and a disk in memory.
ghost use Rattle.std.specs.Prelude.{◌≡◌, ◌<◌, ◌≤◌};

use crate::expect::{holds, same};
use soc_base::{Bytes, NoMemory};
use soc_book::Restored;
use soc_collect::Tally;
use soc_crew::*;
use soc_desk::Limits;
use soc_edge::{BytesList, Disk, Ids16, MemClock, MemDisk, MemDraws, Numbers};
use soc_hall::Logged;
use soc_http::Routes;
use soc_listen::{MemLink, MemListener};
use soc_schema::{Bare, Products, Tokens};
use soc_service::OpenGate;
use soc_session::{Rules, Setting};
use soc_throttle::RuleSet;
use soc_turns::SharedBook;
use std::alloc::Global;
use std::process::Abort;
use std::snapshot::Snapshot;
use std::sync::Wait;
use std::test::Fail;
use std::thread::Threads;

const LIMITS: Limits = Limits {
    journal_bytes: 4000,
    crashes: 2,
};

const TOKENS: &str = r#"
[[token]]
key = "operator"
products = "all"
permissions = ["operate"]
"#;

// The journal of one crash of Firefox, which is deferred.
const JOURNAL: &[u8] =
    b"SOCJ0002\x01A\x64\x00\x00\x00de1bb258-cbbf-4589-a673-34f801160918\x00\xd9\xddW\x00\x00\x00\x00\x00\x00\x00\x00\x00\x00\x00\x00\x0a\x00\x00\x00accept_all\x01\x00\x00\x00\x0b\x00\x00\x00ProductName\x07\x00\x00\x00Firefox\x00\x00\x00\x00\x00";

const READ: &[u8] =
    b"GET /api/RawCrash/?crash_id=de1bb258-cbbf-4589-a673-34f801160918 HTTP/1.1\r\nHost: h\r\n\r\n";

const READ_REPLY: &[u8] =
    b"HTTP/1.1 200 OK\r\nContent-Type: application/json\r\nContent-Length: 25\r\n\r\n{\"ProductName\":\"Firefox\"}";

const NO_ROUTE: &[u8] = b"GET / HTTP/1.1\r\nHost: h\r\n\r\n";

const STOP: &[u8] =
    b"POST /control/stop HTTP/1.1\r\nHost: h\r\nAuth-Token: operator\r\nContent-Length: 0\r\n\r\n";

fn rules(alloc: Global) -> Result<Rules, Fail> {
    let table = toml::table_from_str(alloc, TOKENS)?;
    Ok(Rules {
        rules: RuleSet::accept_all(alloc)?,
        tokens: Tokens::read(alloc, &toml::Value::Table(table))?,
        public: Products::All,
        session_bytes: 100_000,
        page: None,
        version: None,
    })
}

// A listener of these scripts, whose calls with these numbers fail.
fn listener(alloc: Global, scripts: &[&[u8]], fails: &[u64]) -> Result<MemListener, NoMemory> {
    let mut list = Vec::new(alloc);
    for script in scripts {
        list.push(Bytes::of(alloc, script)?)?;
    }
    let fails = Numbers::new(fails.to_vec(alloc)?);
    MemListener::new(alloc, BytesList::new(list), 16_384, fails)
}

// What the messages of a crew are answered by.
#[derive(Drop)]
struct Around {
    rules: Rules,
    routes: Routes,
}

fn clock(alloc: Global) -> Result<MemClock, Fail> {
    Ok(MemClock::new(Numbers::new(vec![in alloc; 1_474_156_800]?)))
}

fn draws(alloc: Global) -> Result<MemDraws, Fail> {
    Ok(MemDraws::new(
        Numbers::new(vec![in alloc; 0]?),
        Ids16::new(vec![in alloc; [0; 16]]?),
    ))
}

// A disk that holds this journal, or nothing.
fn disk_of(alloc: Global, journal: &[u8]) -> Result<MemDisk, Fail> {
    let mut disk = MemDisk::new(alloc, 4000, 1000, Numbers::new(Vec::new(alloc)))?;
    disk.write_at(0, journal)?;
    disk.sync()?;
    Ok(disk)
}

// What a crew has served, whether its listener failed, and the length of the log that it left.
#[derive(Drop)]
struct Served {
    served: Tally<MemLink>,
    listener: MemListener,
    failed: bool,
    front: u64,
}

// What such a crew goes by.
fn setting_of<'s>(
    alloc: Global,
    crew: Crew,
    around: &'s Around,
) -> CrewSetting<'s, Bare, Bare, OpenGate>
    ensures { result.crew ≡ crew }
{
    CrewSetting {
        crew,
        session: Setting {
            alloc,
            rules: &around.rules,
            routes: &around.routes,
            stacks: &Bare,
        },
        reporter: &Bare,
        gate: &OpenGate,
    }
}

fn served_by<R: Threads + Wait + Sync>(
    rt: &R,
    alloc: Global,
    crew: Crew,
    listener: MemListener,
    journal: &[u8],
) -> Result<Served, Fail>
    requires collectors { (0 < crew.collectors) × (crew.collectors ≤ 8) }
    requires processors { (0 < crew.processors) × (crew.processors ≤ 8) }
{
    let around = Around {
        rules: rules(alloc)?,
        routes: Routes::new(alloc)?,
    };
    let mut clock = clock(alloc)?;
    let mut draws = draws(alloc)?;
    let mut disk = disk_of(alloc, journal)?;
    let opened = Snapshot::of(&disk);
    let Ok(restored) = Restored::read(alloc, &mut disk, &Bare, LIMITS) else {
        return Err(Fail::from("the journal wasn't opened"));
    };
    let book = SharedBook::over(alloc, &mut disk, &Bare, LIMITS, restored, opened);
    let setting = setting_of(alloc, crew, &around);
    let CrewEnd {
        desk: book,
        listener,
        failed,
        served,
        ..
    } = serve_together(rt, setting, book, listener, &mut clock, &mut draws);
    Ok(Served {
        served,
        listener,
        failed: failed?,
        front: book.front(),
    })
}

// Expects so many connections and commands, and whether the desk was stopped.
fn expect_served(rt: &impl Abort, served: &Tally<MemLink>, want: (u64, u64, bool)) {
    same(rt, served.connections(), want.0);
    same(rt, served.kept(), want.1);
    same(rt, served.stopped(), want.2);
}

// Expects that no listener failed, and that the second reply ends with this.
fn expect_second(rt: &impl Abort, end: &Served, reply: &[u8]) {
    holds(rt, !end.failed);
    let written = end.listener.written(1);
    holds(rt, written.is_some_and(|text| text.ends_with(reply)));
}

#[test]
fn a_stop_ends_the_crew(rt: HostRuntime) -> Result<(), Fail> {
    let two = Crew {
        collectors: 2,
        processors: 2,
    };
    let asked = listener(rt.alloc(), &[NO_ROUTE, STOP], &[])?;
    let end = served_by(&rt, rt.alloc(), two, asked, b"")?;
    expect_served(&rt, &end.served, (2, 1, true));
    expect_second(&rt, &end, b"stopping\n");
    Ok(())
}

#[test]
fn the_largest_crew_serves_each_connection_once(rt: HostRuntime) -> Result<(), Fail> {
    let most = Crew {
        collectors: 8,
        processors: 8,
    };
    let many = listener(rt.alloc(), &[NO_ROUTE; 40], &[])?;
    let end = served_by(&rt, rt.alloc(), most, many, b"")?;
    expect_served(&rt, &end.served, (40, 0, false));
    holds(&rt, !end.failed);
    Ok(())
}

#[test]
fn a_failed_listener_is_told(rt: HostRuntime) -> Result<(), Fail> {
    let one = Crew {
        collectors: 1,
        processors: 1,
    };
    let failing = listener(rt.alloc(), &[NO_ROUTE], &[0])?;
    let end = served_by(&rt, rt.alloc(), one, failing, b"")?;
    expect_served(&rt, &end.served, (0, 0, false));
    holds(&rt, end.failed);
    Ok(())
}

#[test]
fn threads_that_read_leave_the_log_as_it_was(rt: HostRuntime) -> Result<(), Fail> {
    let alloc = rt.alloc();
    let four = Crew {
        collectors: 4,
        processors: 1,
    };
    let reads = READ.repeat(alloc, 100)?;
    let replies = READ_REPLY.repeat(alloc, 100)?;
    let asked = listener(alloc, &[reads.as_slice(); 4], &[])?;
    let end = served_by(&rt, alloc, four, asked, JOURNAL)?;
    expect_served(&rt, &end.served, (4, 0, false));
    same(&rt, end.front, 1);
    for number in 0..4usize {
        let written = end.listener.written(number);
        holds(&rt, written.is_some_and(|text| text == replies.as_slice()));
    }
    Ok(())
}
