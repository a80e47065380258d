//! Lists and symbol files, as a service finds them in its folder.
ghost use Rattle.std.specs.Prelude.{◌<◌, IfOk};

use crate::fault::Fault;
use crate::lists::{irrelevant_list, prefix_list, unled_list};
use crate::made_dump::made_named;
use crate::numbers::number_up_to;
use soc_base::{Blobs, Bytes, Text};
use soc_edge::{MemTree, Numbers};
use soc_report::KitText;
use std::alloc::Global;
use std::fs;
use std::rt::Files;

/// A prefix of the module names in made dumps (U+4E00), so that each of their frames goes into the signature.
const MADE_NAMES: &str = "\u{4E00}{4}\n";

/// Symbol files of the ids that the modules of made dumps have: of the file that they name, and of another one.
const MADE_PATHS: [&str; 2] = [
    "x.pdb/7878787878787878787878787878787878787878/x.sym",
    "x/787878787878787878787878787878780/x.sym",
];

/// A symbol file with one function, which covers each module of a made dump.
const MADE_SYMBOLS: &[u8] = b"MODULE windows x86_64 0 x.pdb\nFUNC 0 100000 0 x\n";

/// How many patterns the lists have that made dumps are tried with, and how many of them have no literal front where no
/// word says so.
const PATTERNS: u64 = 2_000;

const UNLED: u64 = 20;

/// How many of them each list has.
const IRRELEVANT: u64 = 800;

const PREFIX: u64 = 800;

const SENTINEL: u64 = 400;

/// The texts of made symbol files, and of lists in which one of so many patterns has no literal front.
pub fn made_kit_text(alloc: Global, one_in: u64) -> Result<KitText, Fault>
    requires { 0 < one_in }
{
    let mut files = Blobs::new(alloc);
    let mut list = String::new(alloc);
    for path in &MADE_PATHS {
        list.push_str(path)?;
        list.push_str("\n")?;
        let place = format!(in alloc; "symbols/{path}")?;
        files.set(Text::from(place), Bytes::of(alloc, MADE_SYMBOLS)?)?;
    }
    put_text(alloc, &mut files, "symbols.txt", list)?;
    let irrelevant = unled_list(alloc, "irrelevant", IRRELEVANT, IRRELEVANT / one_in)?;
    put_text(alloc, &mut files, "irrelevant.txt", irrelevant)?;
    let mut prefix = unled_list(alloc, "prefix", PREFIX, PREFIX / one_in)?;
    prefix.push_str(MADE_NAMES)?;
    put_text(alloc, &mut files, "prefix.txt", prefix)?;
    let sentinel = unled_list(alloc, "sentinel", SENTINEL, SENTINEL / one_in)?;
    put_text(alloc, &mut files, "sentinel.txt", sentinel)?;
    read_texts(alloc, files)
}

/// The texts that a dump is tried with: for a made one those of made lists and symbol files, where a word may say how
/// many patterns have no literal front, and for a file made lists and the symbol files that the words name.
pub fn texts_for<R: Files + AllocGlobal>(
    rt: &R,
    dump: &str,
    words: &[String],
) -> Result<KitText, Fault> {
    match made_named(dump) {
        Some(_) => made_kit_text(rt.alloc(), one_in(words)?),
        None => kit_text(rt, words),
    }
}

/// One in how many patterns has no literal front.
fn one_in(words: &[String]) -> Result<u64, Fault>
    ensures { IfOk result (λ n. 0 < n) }
{
    let unled = match words {
        [] => UNLED,
        [word] => number_up_to(word, PATTERNS)?,
        _ => return Err(Fault::Words),
    };
    if unled == 0 {
        return Err(Fault::Words);
    }
    Ok(PATTERNS / unled)
}

/// The texts of made lists, and of symbol files that are given by their paths in the folder `symbols`.
pub fn kit_text<R: Files + AllocGlobal>(rt: &R, paths: &[String]) -> Result<KitText, Fault> {
    let alloc = rt.alloc();
    let mut files = Blobs::new(alloc);
    let mut list = String::new(alloc);
    for path in paths {
        list.push_str(path.as_str())?;
        list.push_str("\n")?;
        put_symbols(rt, &mut files, path.as_str())?;
    }
    put_text(alloc, &mut files, "symbols.txt", list)?;
    put_text(alloc, &mut files, "irrelevant.txt", irrelevant_list(alloc)?)?;
    put_text(alloc, &mut files, "prefix.txt", prefix_list(alloc)?)?;
    read_texts(alloc, files)
}

/// The texts of a tree of files.
fn read_texts(alloc: Global, files: Blobs) -> Result<KitText, Fault> {
    let mut tree = MemTree::new(files, Numbers::new(Vec::new(alloc)));
    Ok(KitText::read(alloc, &mut tree)?)
}

/// Puts a symbol file among the files.
fn put_symbols<R: Files + AllocGlobal>(rt: &R, files: &mut Blobs, path: &str) -> Result<(), Fault> {
    let place = format!(in rt.alloc(); "symbols/{path}")?;
    let content = fs::read(rt, place.as_str())?;
    files.set(Text::from(place), Bytes::from(content))?;
    Ok(())
}

fn put_text(alloc: Global, files: &mut Blobs, name: &str, text: String) -> Result<(), Fault> {
    let bytes = Bytes::of(alloc, text.as_bytes())?;
    files.set(Text::of(alloc, name)?, bytes)?;
    Ok(())
}
