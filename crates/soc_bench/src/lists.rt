//! List files of made patterns, about as many as Mozilla's have.
use crate::fault::Fault;
use std::alloc::{AllocError, Global};

/// How many irrelevant patterns there are.
const IRRELEVANT: u64 = 400;

/// How many prefix patterns there are.
const PREFIX: u64 = 900;

/// The list of irrelevant frames.
pub fn irrelevant_list(alloc: Global) -> Result<String, Fault> {
    patterns(alloc, "irrelevant", IRRELEVANT)
}

/// The list of prefixes.
pub fn prefix_list(alloc: Global) -> Result<String, Fault> {
    patterns(alloc, "prefix", PREFIX)
}

/// The text of a frame that a prefix matches.
pub fn prefix_frame(alloc: Global, number: u64) -> Result<String, Fault> {
    let word = word_of(number % PREFIX);
    Ok(format!(in alloc; "ns{word:04x}_prefix::function_{number}")?)
}

/// What a pattern's text begins with, in no order.
fn word_of(number: u64) -> u64 {
    number.wrapping_mul(40_503) % 65_536
}

/// A list file. Of eight patterns one is not literal after its front, and one has no literal front.
fn patterns(alloc: Global, kind: &str, count: u64) -> Result<String, Fault> {
    let mut file = String::new(alloc);
    for number in 0..count {
        file.push_str(pattern(alloc, kind, number)?.as_str())?;
    }
    Ok(file)
}

/// A line of a list file.
fn pattern(alloc: Global, kind: &str, number: u64) -> Result<String, AllocError> {
    let word = word_of(number);
    match number % 8 {
        0 => format!(in alloc; "ns{word:04x}_{kind}(_[a-z]+)?::.*\n"),
        4 => format!(in alloc; "(?:ns|mozilla)[a-z]?{word:04x}_{kind}::\n"),
        _ => format!(in alloc; "ns{word:04x}_{kind}::\n"),
    }
}

/// A list file of which so many patterns have no literal front, and all others have one.
pub fn unled_list(alloc: Global, kind: &str, count: u64, unled: u64) -> Result<String, Fault> {
    let mut file = String::new(alloc);
    for number in 0..count {
        let word = word_of(number);
        let line = if number < unled {
            unled_pattern(alloc, kind, number)?
        } else {
            format!(in alloc; "ns{word:04x}_{kind}(_[a-z]+)?::.*\n")?
        };
        file.push_str(line.as_str())?;
    }
    Ok(file)
}

/// A line without a literal front: every other one reads a frame to its end.
fn unled_pattern(alloc: Global, kind: &str, number: u64) -> Result<String, AllocError> {
    let word = word_of(number);
    match number % 4 {
        0 => format!(in alloc; ".*{word:04x}_{kind}\n"),
        1 => format!(in alloc; "(?:ns|mozilla)[a-z]?{word:04x}_{kind}::\n"),
        2 => format!(in alloc; "(?:.*::)?{word:04x}_{kind}\n"),
        _ => format!(in alloc; "_?{word:04x}_{kind}::\n"),
    }
}
