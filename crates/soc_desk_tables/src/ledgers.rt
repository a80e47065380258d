//! Ledgers, event by event.
ghost use Rattle.std.specs.Prelude.{◌≡◌, ◌<◌, IfOk, IsTrue, length};
ghost use Rattle.soc_ledger.specs.Events.{is_held};
ghost use Rattle.soc_ledger.specs.State.{id_of};

use soc_base::SharedText;
use soc_ledger::{Filed, Ledger};
use soc_raw::{CrashId, Digit};
use soc_tables::{Fault, Row};
use std::alloc::Global;

/// The first one is due at once, the second one when it is asked for.
const IDS: [&str; 2] = [
    "de1bb258-cbbf-4589-a673-34f800160918",
    "de1bb258-cbbf-4589-a673-34f801160918",
];

fn filed(alloc: Global, id: CrashId) -> Result<Filed, Fault>
    ensures { IfOk result (λ filed. filed.id ≡ id) }
{
    Ok(Filed {
        id,
        place: 8,
        content: 60,
        product: Some(SharedText::of(alloc, "Firefox")?),
        digest: [7; 32],
    })
}

/// The number of a held crash.
fn held(ledger: &Ledger, id: CrashId) -> Result<u32, Fault>
    ensures crash { IfOk result (λ number. number < length ledger.now.crashes) }
    ensures held { IfOk result (λ number.
        IsTrue (is_held ledger.now.log (id_of ledger.now number))) }
{
    let number = ledger
        .number_of(id)
        .ok_or_else(|| Fault::new("never accepted"))?;
    if ledger.crash(number).standing.withdrawn {
        return Err(Fault::new("withdrawn"));
    }
    Ok(number)
}

fn accept(alloc: Global, ledger: &mut Ledger, id: CrashId) -> Result<(), Fault> {
    let filed = filed(alloc, id)?;
    ledger.reserve(1)?;
    if ledger.accepted() > 1_000_000 {
        return Err(Fault::new("too many"));
    }
    match ledger.number_of(id) {
        None => ledger.accept(filed),
        Some(_) => return Err(Fault::new("there already")),
    }
    Ok(())
}

fn finish(ledger: &mut Ledger, id: CrashId) -> Result<(), Fault> {
    ledger.reserve(1)?;
    let number = ledger
        .number_of(id)
        .ok_or_else(|| Fault::new("never accepted"))?;
    if ledger.crash(number).standing.due_since.is_none() {
        return Err(Fault::new("not due"));
    }
    ledger.finish(number);
    Ok(())
}

fn stop(ledger: &mut Ledger) -> Result<(), Fault> {
    ledger.reserve(1)?;
    if ledger.is_stopped() {
        return Err(Fault::new("stopped"));
    }
    ledger.stop();
    Ok(())
}

/// One more event, where it may follow.
fn follow(alloc: Global, ledger: &mut Ledger, kind: u8, id: CrashId) -> Result<(), Fault> {
    match kind {
        b'A' => return accept(alloc, ledger, id),
        b'D' => return finish(ledger, id),
        b'S' => return stop(ledger),
        _ => {}
    }
    ledger.reserve(1)?;
    let number = held(ledger, id)?;
    match kind {
        b'Q' => ledger.ask(number),
        b'W' => ledger.withdraw(number),
        b'R' => ledger.report(number, true),
        b'F' => ledger.report(number, false),
        _ => return Err(Fault::new("no event")),
    }
    Ok(())
}

fn id(number: u8) -> Result<CrashId, Fault> {
    let text = IDS
        .get(usize::from(number))
        .ok_or_else(|| Fault::new("no id"))?;
    CrashId::parse(text).ok_or_else(|| Fault::new("no id"))
}

/// The ledger after these events, each a letter and the number of its crash.
fn ledger_of(alloc: Global, events: &str) -> Result<Ledger, Fault> {
    let mut ledger = Ledger::new(alloc);
    for event in events.as_bytes().chunks(2) {
        if let [kind, number] = event {
            follow(alloc, &mut ledger, *kind, id(number.saturating_sub(b'0'))?)?;
        }
    }
    Ok(ledger)
}

/// What the log of a row's events tells: the crashes that are due, in order, and how many are held, have a report, were
/// withdrawn and were asked for.
pub fn ledger(alloc: Global, row: &Row<'_>) -> Result<String, Fault> {
    let events = row.text(alloc, "events")?;
    let ledger = ledger_of(alloc, events.as_str())?;
    ledger_text(alloc, &ledger)
}

fn ledger_text(alloc: Global, ledger: &Ledger) -> Result<String, Fault> {
    let due = due(alloc, ledger)?;
    Ok(format!(in alloc;
        "[{}] {} {} {} {}",
        due.as_str(),
        ledger.held(),
        ledger.reports(),
        ledger.withdrawn(),
        ledger.asks()
    )?)
}

/// The due crashes in order.
fn due(alloc: Global, ledger: &Ledger) -> Result<String, Fault> {
    let mut text = String::new(alloc);
    for place in 0..ledger.due() {
        let id = ledger.crash(ledger.due_at(place)).filed.id;
        text.push_str(match id.digit() {
            Digit::Accepted => "0",
            Digit::Deferred => "1",
        })?;
    }
    Ok(text)
}

/// The id of a crash of a number that is due at once: the numbers stand in the ids from the low byte on, so they don't rise
/// with them.
fn crash_id(number: u16) -> CrashId {
    let mut draw = [0xa5; 16];
    draw[0] = (number & 0xff) as u8;
    draw[1] = (number >> 8) as u8;
    CrashId::make(draw, Digit::Accepted, 1_474_156_800)
}

/// Of so many crashes, of which all but each third one are finished, how many are found by their ids, and how many are due, in
/// the order of their numbers.
pub fn many(alloc: Global, row: &Row<'_>) -> Result<String, Fault> {
    let count = u16::try_from(row.number("crashes")?)?;
    let mut ledger = Ledger::new(alloc);
    accept_many(alloc, &mut ledger, count)?;
    let found = found(&ledger, count);
    finish_many(&mut ledger, count)?;
    Ok(format!(in alloc;
        "{found} found, {} due, {} reports",
        due_in_order(&ledger),
        ledger.reports()
    )?)
}

fn accept_many(alloc: Global, ledger: &mut Ledger, count: u16) -> Result<(), Fault> {
    for number in 0..count {
        accept(alloc, ledger, crash_id(number))?;
    }
    Ok(())
}

fn found(ledger: &Ledger, count: u16) -> u32 {
    let mut found = 0u32;
    for number in 0..count {
        let is_found = ledger.number_of(crash_id(number)) == Some(u32::from(number));
        found = found.saturating_add(u32::from(is_found));
    }
    found
}

/// Finishes two crashes of three.
fn finish_many(ledger: &mut Ledger, count: u16) -> Result<(), Fault> {
    for number in 0..count {
        if number % 3 != 1 {
            finish(ledger, crash_id(number))?;
        }
    }
    Ok(())
}

/// How many due crashes have the number that is theirs by their place.
fn due_in_order(ledger: &Ledger) -> u32 {
    let mut due = 0u32;
    for place in 0..ledger.due() {
        let is_next = u64::from(ledger.due_at(place)) == 3 * u64::from(place) + 1;
        due = due.saturating_add(u32::from(is_next));
    }
    due
}
