//! The program's arguments, and made crashes.
use soc_edge::{MemSink, Numbers};
use soc_made::{made_crash, make};
use soc_tables::{Fault, Row};
use soc_words::Words;
use std::alloc::Global;

/// What arguments say: the command, journal, tree and listen, seed, count, collectors and processors.
pub fn words(alloc: Global, row: &Row<'_>) -> Result<String, Fault> {
    let text = row.text(alloc, "words")?;
    let list = split(alloc, text.as_str())?;
    let words = Words::read(alloc, list.as_slice())?;
    said(alloc, &words)
}

fn split(alloc: Global, text: &str) -> Result<Vec<String>, Fault> {
    let mut words = Vec::new(alloc);
    for word in text.split_whitespace() {
        words.push(String::from_str(alloc, word)?)?;
    }
    Ok(words)
}

fn said(alloc: Global, words: &Words) -> Result<String, Fault> {
    Ok(format!(in alloc;
        "{:?} {} {} {} {} {} {} {}",
        words.command,
        words.journal.as_str(),
        words.tree.as_str(),
        words.listen.as_str(),
        words.seed,
        words.count,
        words.collectors,
        words.processors
    )?)
}

/// A polynomial of the bytes modulo 2^64.
fn sum_of(bytes: &[u8]) -> u64 {
    let mut sum: u64 = 0;
    for byte in bytes {
        sum = sum.wrapping_mul(31).wrapping_add(u64::from(*byte));
    }
    sum
}

/// The length of a made crash's message and the sum of its bytes, if it begins with the head.
pub fn crash(alloc: Global, row: &Row<'_>) -> Result<String, Fault> {
    let seed = row.number("seed")?;
    let number = row.cell("number")?.parse::<u16>()?;
    let message = made_crash(alloc, seed, u32::from(number))?;
    let head = row.bytes(alloc, "head")?;
    summed(alloc, message.as_slice(), head.as_slice())
}

fn summed(alloc: Global, message: &[u8], head: &[u8]) -> Result<String, Fault> {
    let other = if message.starts_with(head) {
        ""
    } else {
        ", another head"
    };
    let (length, sum) = (message.len(), sum_of(message));
    Ok(format!(in alloc; "{length} bytes, sum {sum}{other}")?)
}

/// What is written of the first crashes of a seed, with so much room, where the writes with these numbers fail.
pub fn made(alloc: Global, row: &Row<'_>) -> Result<String, Fault> {
    let mut sink = sink(alloc, row)?;
    let seed = row.number("seed")?;
    let count = row.cell("count")?.parse::<u16>()?;
    let end = make(alloc, seed, u32::from(count), &mut sink);
    let is_front = crashes(alloc, seed, count)?
        .as_slice()
        .starts_with(sink.bytes());
    let other = if is_front { "" } else { ", other crashes" };
    let length = sink.bytes().len();
    Ok(format!(in alloc; "{end:?}, {length} bytes{other}")?)
}

fn sink(alloc: Global, row: &Row<'_>) -> Result<MemSink, Fault> {
    let mut fails = Vec::new(alloc);
    for item in row.items(alloc, "fails")? {
        fails.push(item.as_str().parse::<u64>()?)?;
    }
    let room = row.cell("room")?.parse::<usize>()?;
    Ok(MemSink::new(alloc, room, Numbers::new(fails))?)
}

/// The first crashes of a seed, one after another.
fn crashes(alloc: Global, seed: u64, count: u16) -> Result<Vec<u8>, Fault> {
    let mut all = Vec::new(alloc);
    for number in 0..count {
        all.extend_from_slice(made_crash(alloc, seed, u32::from(number))?.as_slice())?;
    }
    Ok(all)
}
