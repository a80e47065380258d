//! Runs of sessions over a sample desk.
use crate::sample::{Choice, Sample, SampleStacks};
use crate::texts::text_of;
use soc_base::Bytes;
use soc_edge::{
    Both, Clock, Draws, Ids16, MemClock, MemDraws, MemSink, MemSource, Numbers, Sink, Source,
};
use soc_http::{Buffer, Routes};
use soc_replay::read_tokens;
use soc_schema::Products;
use soc_session::{Rules, SessionEnd, Setting, session};
use soc_tables::Fault;
use soc_throttle::RuleSet;
use std::alloc::Global;

/// More bytes than any session here answers.
pub const AMPLE: u64 = 65_536;

const DRAW: [u8; 16] = [
    0xDE, 0x1B, 0xB2, 0x58, 0xCB, 0xBF, 0x45, 0x89, 0xA6, 0x73, 0x34, 0xF8, 0, 0, 0, 0,
];

pub fn rules(alloc: Global, texts: &str, session_bytes: u64) -> Result<Rules, Fault> {
    Ok(Rules {
        rules: RuleSet::accept_all(alloc)?,
        tokens: read_tokens(alloc, text_of(alloc, texts, "TOKENS")?.as_slice())?,
        public: Products::All,
        session_bytes,
        page: Some(Bytes::of(alloc, b"<!DOCTYPE html>\n")?),
        version: None,
    })
}

/// How a session ends.
pub fn served_with<X: Source + Sink, C: Clock, W: Draws>(
    alloc: Global,
    choice: Choice,
    link: &mut X,
    rules: &Rules,
    clock: &mut C,
    draws: &mut W,
) -> Result<SessionEnd, Fault> {
    let mut desk = Sample { alloc, choice };
    let routes = Routes::new(alloc)?;
    let mut buffer = Buffer::new(alloc)?;
    let setting = Setting {
        alloc,
        rules,
        routes: &routes,
        stacks: &SampleStacks,
    };
    Ok(session(&setting, &mut desk, link, &mut buffer, clock, draws))
}

/// How a session ends, with these rules and a clock that stands still and equal draws.
pub fn served<X: Source + Sink>(
    alloc: Global,
    texts: &str,
    choice: Choice,
    session_bytes: u64,
    link: &mut X,
) -> Result<SessionEnd, Fault> {
    let rules = rules(alloc, texts, session_bytes)?;
    let mut clock = MemClock::new(Numbers::new(vec![in alloc; 1_474_156_800]?));
    let mut draws = MemDraws::new(
        Numbers::new(vec![in alloc; 0]?),
        Ids16::new(vec![in alloc; DRAW]?),
    );
    served_with(alloc, choice, link, &rules, &mut clock, &mut draws)
}
