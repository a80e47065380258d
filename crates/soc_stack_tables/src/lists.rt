//! Lists of patterns.
use soc_base::{Text, TextList};
use soc_edge::Numbers;
use soc_siglists::{FailingMaker, ListMatchers, Lists, Maker, RegexMaker};
use soc_tables::{Fault, Row};
use std::alloc::Global;

/// The lists of a row's cells.
pub fn read(
    alloc: Global,
    row: &Row<'_>,
    maker: &mut impl Maker,
    irrelevant: &str,
    prefix: &str,
    sentinel: &str,
) -> Result<Lists, Fault> {
    let irrelevant = row.bytes(alloc, irrelevant)?;
    let prefix = row.bytes(alloc, prefix)?;
    let sentinel = row.bytes(alloc, sentinel)?;
    Ok(Lists::read(
        alloc,
        maker,
        irrelevant.as_slice(),
        prefix.as_slice(),
        sentinel.as_slice(),
    )?)
}

/// The texts of the items of a column's cell.
pub fn texts(alloc: Global, row: &Row<'_>, name: &str) -> Result<TextList, Fault> {
    let mut texts = TextList::new(alloc);
    for item in row.items(alloc, name)? {
        texts.push(Text::from(item))?;
    }
    Ok(texts)
}

/// Whether each frame matches each of three lists that are the same.
pub fn matches(alloc: Global, row: &Row<'_>) -> Result<String, Fault> {
    let lists = read(alloc, row, &mut RegexMaker::new(), "list", "list", "list")?;
    answers(alloc, &lists, row)
}

fn answers(alloc: Global, lists: &Lists, row: &Row<'_>) -> Result<String, Fault> {
    let mut answers = String::new(alloc);
    for frame in row.items(alloc, "frames")? {
        append(&mut answers, " ", answer(alloc, lists, frame.as_str())?)?;
    }
    Ok(answers)
}

/// Appends an item to a text, after a separator where there are others.
pub fn append(text: &mut String, separator: &str, item: &str) -> Result<(), Fault> {
    if !text.is_empty() {
        text.push_str(separator)?;
    }
    text.push_str(item)?;
    Ok(())
}

fn answer(alloc: Global, lists: &Lists, frame: &str) -> Result<&'static str, Fault> {
    let mut frames = TextList::new(alloc);
    frames.push(Text::of(alloc, frame)?)?;
    let answers = (
        lists.is_irrelevant(alloc, frame)?,
        lists.is_prefix(alloc, frame)?,
        lists.sentinel_at(alloc, &frames)?.is_some(),
    );
    match answers {
        (true, true, true) => Ok("yes"),
        (false, false, false) => Ok("no"),
        _ => Ok("not the same of each list"),
    }
}

/// A maker whose calls with a row's numbers fail.
fn failing(alloc: Global, row: &Row<'_>) -> Result<FailingMaker, Fault> {
    let mut fails = Vec::new(alloc);
    for item in row.items(alloc, "fails")? {
        fails.push(item.as_str().parse::<u64>()?)?;
    }
    Ok(FailingMaker::new(Numbers::new(fails)))
}

/// Whether lists are read.
pub fn lists(alloc: Global, row: &Row<'_>) -> Result<String, Fault> {
    let mut maker = failing(alloc, row)?;
    let _ = read(alloc, row, &mut maker, "irrelevant", "prefix", "sentinel")?;
    Ok(String::from_str(alloc, "read")?)
}

/// What becomes of patterns.
pub fn makes(alloc: Global, row: &Row<'_>) -> Result<String, Fault> {
    let mut maker = failing(alloc, row)?;
    let mut made = String::new(alloc);
    for pattern in row.items(alloc, "patterns")? {
        match maker.make(alloc, pattern.as_str()) {
            Ok(_) => append(&mut made, "; ", "made")?,
            Err(error) => append(&mut made, "; ", format!(in alloc; "{error:?}")?.as_str())?,
        }
    }
    Ok(made)
}

/// The place of the first sentinel.
pub fn sentinel(alloc: Global, row: &Row<'_>) -> Result<String, Fault> {
    let lists = read(
        alloc,
        row,
        &mut RegexMaker::new(),
        "sentinel",
        "sentinel",
        "sentinel",
    )?;
    place(alloc, &lists, row)
}

fn place(alloc: Global, lists: &Lists, row: &Row<'_>) -> Result<String, Fault> {
    let place = lists.sentinel_at(alloc, &texts(alloc, row, "frames")?)?;
    Ok(format!(in alloc; "{place:?}")?)
}

/// In which lists frames are, by matchers that are asked again and again.
pub fn matchers(alloc: Global, row: &Row<'_>) -> Result<String, Fault> {
    let lists = read(
        alloc,
        row,
        &mut RegexMaker::new(),
        "prefix",
        "prefix",
        "sentinel",
    )?;
    asked(alloc, &lists, row)
}

fn asked(alloc: Global, lists: &Lists, row: &Row<'_>) -> Result<String, Fault> {
    let mut matchers = lists.matchers(alloc)?;
    asked_again(alloc, &mut matchers, row)
}

fn asked_again(
    alloc: Global,
    matchers: &mut ListMatchers<'_>,
    row: &Row<'_>,
) -> Result<String, Fault> {
    let mut answers = String::new(alloc);
    for frame in row.items(alloc, "frames")? {
        append(
            &mut answers,
            " ",
            asked_of(alloc, matchers, frame.as_str())?,
        )?;
    }
    Ok(answers)
}

fn asked_of(
    alloc: Global,
    matchers: &mut ListMatchers<'_>,
    frame: &str,
) -> Result<&'static str, Fault> {
    let is_sentinel = matchers.is_sentinel(alloc, frame)?;
    match (matchers.is_prefix(alloc, frame)?, is_sentinel) {
        (true, false) => Ok("prefix"),
        (false, true) => Ok("sentinel"),
        _ => Ok("both or none"),
    }
}
