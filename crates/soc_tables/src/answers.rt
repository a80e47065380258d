//! Answers of calls as texts, and steps of one word after another.
use crate::fault::Fault;
use crate::row::number_of;
use std::alloc::Global;
use std::fmt::Debug;

/// The same text.
pub fn copy(alloc: Global, text: &str) -> Result<String, Fault> {
    Ok(String::from_str(alloc, text)?)
}

/// Appends an answer to those before, after `; `.
pub fn append(answers: &mut String, answer: &str) -> Result<(), Fault> {
    if !answers.is_empty() {
        answers.push_str("; ")?;
    }
    answers.push_str(answer)?;
    Ok(())
}

/// Bytes as a text: as they are where they are UTF-8, else their digits after `0x`, and `nothing` where there are none.
pub fn shown(alloc: Global, bytes: &[u8]) -> Result<String, Fault> {
    match str::from_utf8(bytes) {
        Ok("") => copy(alloc, "nothing"),
        Ok(text) => copy(alloc, text),
        Err(_) => digits(alloc, bytes),
    }
}

fn digits(alloc: Global, bytes: &[u8]) -> Result<String, Fault> {
    let mut digits = String::from_str(alloc, "0x")?;
    for byte in bytes {
        write!(digits, "{byte:02x}")?;
    }
    Ok(digits)
}

/// An answer, or why there is none.
pub fn told(alloc: Global, answer: Result<String, Fault>) -> Result<String, Fault> {
    match answer {
        Ok(answer) => Ok(answer),
        Err(fault) => copy(alloc, fault.as_str()),
    }
}

/// `done`, where a call succeeds.
pub fn done<E: Debug + Drop>(alloc: Global, call: Result<(), E>) -> Result<String, Fault> {
    call?;
    copy(alloc, "done")
}

/// The word at a place of a step, or nothing.
pub fn word(step: &str, place: usize) -> &str {
    step.split_whitespace().nth(place).unwrap_or("")
}

/// The number that is the word at a place of a step.
pub fn number_at(step: &str, place: usize) -> Result<u64, Fault> {
    number_of(word(step, place))
}
