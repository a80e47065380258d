//! Books over disks in memory.
use crate::asks::{answers, receipts, receipts_at_once};
use crate::lost::Zeroed;
use crate::reporters::{Digested, Wanting};
use soc_book::{Book, Restored};
use soc_desk::Limits;
use soc_edge::{Counted, Disk, MemDisk, Numbers};
use soc_schema::{Bare, Reporter};
use soc_tables::{Fault, Row, append, copy, number_at, word};
use std::alloc::Global;

/// An empty disk whose calls with these numbers fail.
fn disk(alloc: Global, fails: &[u64]) -> Result<MemDisk, Fault> {
    let fails = Numbers::new(fails.to_vec(alloc)?);
    Ok(MemDisk::new(alloc, 8_000, 900, fails)?)
}

/// The book that a disk's journal keeps.
fn opened<'a, D: Disk, R: Reporter>(
    alloc: Global,
    disk: &'a mut D,
    reporter: &'a R,
    limits: Limits,
) -> Result<Book<'a, D, R>, Fault> {
    let restored = Restored::read(alloc, disk, reporter, limits)?;
    Ok(Book::over(alloc, disk, reporter, limits, restored))
}

pub fn limits_of(row: &Row<'_>) -> Result<Limits, Fault> {
    Ok(Limits {
        journal_bytes: row.number("journal_bytes")?,
        crashes: u32::try_from(row.number("crashes")?)?,
    })
}

/// What a book counts: changes, held crashes, due ones, withdrawn ones, reports and asks.
fn append_counts<D: Disk, R: Reporter>(
    text: &mut String,
    book: &Book<'_, D, R>,
) -> Result<(), Fault> {
    write!(
        text,
        "; {} {} {} {} {} {}",
        book.front(),
        book.crashes(),
        book.due(),
        book.withdrawn(),
        book.reports(),
        book.asks()
    )?;
    Ok(())
}

/// What acts over a disk are answered, and what the book counts then.
fn acts_over<D: Disk>(alloc: Global, disk: &mut D, row: &Row<'_>) -> Result<String, Fault> {
    let mut book = opened(alloc, disk, &Bare, limits_of(row)?)?;
    let mut text = answers(alloc, &mut book, row.cell("acts")?)?;
    append_counts(&mut text, &book)?;
    Ok(text)
}

/// The same over an empty disk.
pub fn book(alloc: Global, row: &Row<'_>) -> Result<String, Fault> {
    acts_over(alloc, &mut disk(alloc, &[])?, row)
}

/// The receipts of acts over an empty disk.
pub fn book_receipts(alloc: Global, row: &Row<'_>) -> Result<String, Fault> {
    let mut disk = disk(alloc, &[])?;
    let mut book = opened(alloc, &mut disk, &Bare, limits_of(row)?)?;
    receipts(alloc, &mut book, row.cell("acts")?)
}

/// The receipts of acts that are asked at once, over an empty disk whose calls of some numbers fail, and what the book counts
/// then.
pub fn together(alloc: Global, row: &Row<'_>) -> Result<String, Fault> {
    let fails = row.numbers(alloc, "fails")?;
    let mut disk = disk(alloc, fails.as_slice())?;
    let mut book = opened(alloc, &mut disk, &Bare, limits_of(row)?)?;
    let mut text = receipts_at_once(alloc, &mut book, row.cell("acts")?)?;
    append_counts(&mut text, &book)?;
    Ok(text)
}

/// What the lives of a disk come to, one after another: of each how many crashes are due and have a report when it begins,
/// and what its acts are answered. A life has a reporter and acts.
pub fn lives(alloc: Global, row: &Row<'_>) -> Result<String, Fault> {
    let limits = limits_of(row)?;
    let mut disk = disk(alloc, &[])?;
    let mut text = String::new(alloc);
    for life in row.cell("lives")?.split(';') {
        let (reporter, acts) = life.split_once(':').unwrap_or((life, ""));
        let answer = life_text(alloc, &mut disk, limits, reporter, acts)?;
        append(&mut text, answer.as_str())?;
    }
    Ok(text)
}

fn life_text(
    alloc: Global,
    disk: &mut MemDisk,
    limits: Limits,
    reporter: &str,
    acts: &str,
) -> Result<String, Fault> {
    match word(reporter, 0) {
        "bare" => life(alloc, disk, &Bare, limits, acts),
        "wanting" => life(alloc, disk, &Wanting, limits, acts),
        _ => {
            let digest = [u8::try_from(number_at(reporter, 1)?)?; 32];
            life(alloc, disk, &Digested { digest }, limits, acts)
        }
    }
}

fn life<R: Reporter>(
    alloc: Global,
    disk: &mut MemDisk,
    reporter: &R,
    limits: Limits,
    acts: &str,
) -> Result<String, Fault> {
    let mut book = opened(alloc, disk, reporter, limits)?;
    let mut text = format!(in alloc; "{} due, {} reports", book.due(), book.reports())?;
    append(&mut text, answers(alloc, &mut book, acts)?.as_str())?;
    Ok(text)
}

/// What acts over a disk are answered that tells nothing and gives zeros from a call on, and what the book counts then.
pub fn over_zeros(alloc: Global, row: &Row<'_>) -> Result<String, Fault> {
    let mut disk = Counted::new(Zeroed {
        disk: disk(alloc, &[])?,
        from: row.number("from")?,
        calls: 0,
    });
    acts_over(alloc, &mut disk, row)
}

/// Whether a crash that is sent three times over disks, of which each refuses one more call, is kept once, with one fault at most,
/// and is there after a stop; or the first call after which it isn't.
pub fn thrice(alloc: Global, row: &Row<'_>) -> Result<String, Fault> {
    let limits = limits_of(row)?;
    for call in 0..row.number("calls")? {
        if !is_kept_once(alloc, limits, call)? {
            return Ok(format!(in alloc; "not at call {call}")?);
        }
    }
    copy(alloc, "all")
}

fn is_kept_once(alloc: Global, limits: Limits, call: u64) -> Result<bool, Fault> {
    let mut disk = disk(alloc, &[call])?;
    match sent_thrice(alloc, &mut disk, limits)? {
        Some(is_kept) => Ok(is_kept && crashes_on(alloc, disk.stop(0), limits)? == 1),
        None => Ok(true),
    }
}

/// Whether a crash that is sent three times is kept once, and nothing where the journal isn't opened.
fn sent_thrice(alloc: Global, disk: &mut MemDisk, limits: Limits) -> Result<Option<bool>, Fault> {
    let Ok(restored) = Restored::read(alloc, disk, &Bare, limits) else {
        return Ok(None);
    };
    let mut book = Book::over(alloc, disk, &Bare, limits, restored);
    let acts = "submit firefox, submit firefox, submit firefox";
    let text = answers(alloc, &mut book, acts)?;
    Ok(Some(book.crashes() == 1 && is_told(text.as_str())))
}

/// Whether one answer at most is a fault of the store, and the last one is that or tells that the crash is there.
fn is_told(answers: &str) -> bool {
    let is_last = answers.ends_with("store fault") || answers.ends_with("repeated");
    is_last && answers.split("store fault").count() <= 2
}

fn crashes_on(alloc: Global, mut image: MemDisk, limits: Limits) -> Result<u32, Fault> {
    let book = opened(alloc, &mut image, &Bare, limits)?;
    Ok(book.crashes())
}
