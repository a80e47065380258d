//! Reports of crashes.
use crate::dump::dump_of;
use crate::signatures::copy;
use soc_base::{Blobs, Bytes, Text};
use soc_edge::{MemTree, Numbers};
use soc_raw::RawCrash;
use soc_report::{Kit, KitText, stack_text};
use soc_schema::{Caller, Permission, Permissions, Products, Reporter, row_json};
use soc_siglists::RegexMaker;
use soc_tables::{Fault, Row};
use std::alloc::Global;

/// A record's id, moment, verdict and rule.
const HEAD: &[u8] =
    b"de1bb258-cbbf-4589-a673-34f800160918\x00\xd9\xddW\x00\x00\x00\x00\x00\x00\x00\x00\x00\x00\x00\x00\x0a\x00\x00\x00accept_all";

/// Puts a number into a record.
fn put_number(record: &mut Vec<u8>, number: usize) -> Result<(), Fault> {
    record.extend_from_slice(&u32::try_from(number)?.to_le_bytes())?;
    Ok(())
}

/// Puts a text or a blob into a record.
fn put(record: &mut Vec<u8>, bytes: &[u8]) -> Result<(), Fault> {
    put_number(record, bytes.len())?;
    record.extend_from_slice(bytes)?;
    Ok(())
}

fn put_annotations(alloc: Global, record: &mut Vec<u8>, row: &Row<'_>) -> Result<(), Fault> {
    let annotations = row.items(alloc, "annotations")?;
    put_number(record, annotations.len())?;
    for item in &annotations {
        let (name, value) = item.as_str().split_once('=').unwrap_or((item.as_str(), ""));
        put(record, name.as_bytes())?;
        put(record, value.as_bytes())?;
    }
    Ok(())
}

fn put_dump(alloc: Global, record: &mut Vec<u8>, layout: &str, row: &Row<'_>) -> Result<(), Fault> {
    if row.cell("stack")? == "-" {
        return put_number(record, 0);
    }
    put_number(record, 1)?;
    put(record, b"upload_file_minidump")?;
    let dump = dump_of(alloc, layout, row)?;
    put(record, dump.as_slice())
}

/// The record of a crash with a row's annotations, in the order of their names, and its dump, if it has a stack.
fn record_of(alloc: Global, layout: &str, row: &Row<'_>) -> Result<Vec<u8>, Fault> {
    let mut record = Vec::from_slice(alloc, HEAD)?;
    put_annotations(alloc, &mut record, row)?;
    put_dump(alloc, &mut record, layout, row)?;
    Ok(record)
}

fn put_file(alloc: Global, files: &mut Blobs, item: &str) -> Result<(), Fault> {
    let (name, content) = item.split_once('=').unwrap_or((item, ""));
    let content = Bytes::of(alloc, content.as_bytes())?;
    files.set(Text::of(alloc, name)?, content)?;
    Ok(())
}

fn files_of(alloc: Global, row: &Row<'_>) -> Result<Blobs, Fault> {
    let mut files = Blobs::new(alloc);
    for item in row.items(alloc, "files")? {
        put_file(alloc, &mut files, item.as_str())?;
    }
    Ok(files)
}

/// The texts of lists and symbols that are a row's files.
fn texts(alloc: Global, row: &Row<'_>) -> Result<KitText, Fault> {
    let mut tree = MemTree::new(files_of(alloc, row)?, Numbers::new(Vec::new(alloc)));
    Ok(KitText::read(alloc, &mut tree)?)
}

/// What threads may share and hand over.
fn threads_share<T: Send + Sync>(_value: &T) {}

/// Whether lists and symbols are read.
pub fn kit(alloc: Global, row: &Row<'_>) -> Result<String, Fault> {
    let texts = texts(alloc, row)?;
    threads_share(&texts);
    kit_by(alloc, &texts)
}

fn kit_by(alloc: Global, texts: &KitText) -> Result<String, Fault> {
    let _ = Kit::read(alloc, texts, &mut RegexMaker::new())?;
    copy(alloc, "read")
}

/// The digest of lists and symbols, which is that of the kit made of them.
pub fn digest(alloc: Global, row: &Row<'_>) -> Result<String, Fault> {
    let texts = texts(alloc, row)?;
    digest_by(alloc, &texts)
}

fn digest_by(alloc: Global, texts: &KitText) -> Result<String, Fault> {
    let kit = Kit::read(alloc, texts, &mut RegexMaker::new())?;
    digest_text(alloc, texts.digest(), Reporter::digest(&kit))
}

fn digest_text(alloc: Global, digest: [u8; 32], of_kit: Option<[u8; 32]>) -> Result<String, Fault> {
    if of_kit != Some(digest) {
        return copy(alloc, "another one of the kit");
    }
    let mut digits = String::new(alloc);
    for byte in digest {
        write!(digits, "{byte:02x}")?;
    }
    Ok(digits)
}

/// The report of a crash as JSON: what is wanted, where it is within.
pub fn report(alloc: Global, layout: &str, row: &Row<'_>) -> Result<String, Fault> {
    let record = record_of(alloc, layout, row)?;
    report_of(alloc, record.as_slice(), row)
}

fn report_of(alloc: Global, record: &[u8], row: &Row<'_>) -> Result<String, Fault> {
    let raw = RawCrash::decode(alloc, record)?;
    report_with(alloc, &raw, row)
}

fn report_with(alloc: Global, raw: &RawCrash, row: &Row<'_>) -> Result<String, Fault> {
    let texts = texts(alloc, row)?;
    report_by(alloc, raw, &texts, row)
}

fn report_by(
    alloc: Global,
    raw: &RawCrash,
    texts: &KitText,
    row: &Row<'_>,
) -> Result<String, Fault> {
    let kit = Kit::read(alloc, texts, &mut RegexMaker::new())?;
    let report = json(alloc, raw, &kit)?;
    row.within(alloc, str::from_utf8(report.as_slice())?)
}

fn json(alloc: Global, raw: &RawCrash, kit: &Kit<'_>) -> Result<Bytes, Fault> {
    let report = kit.row(alloc, raw)?;
    Ok(row_json(alloc, &report)?)
}

/// The stack of a crash as JSON, for a caller who sees `all` fields or the public ones: what is wanted, where it is within.
pub fn stack(alloc: Global, layout: &str, row: &Row<'_>) -> Result<String, Fault> {
    let record = record_of(alloc, layout, row)?;
    stack_of(alloc, record.as_slice(), row)
}

fn stack_of(alloc: Global, record: &[u8], row: &Row<'_>) -> Result<String, Fault> {
    let raw = RawCrash::decode(alloc, record)?;
    stack_with(alloc, &raw, row)
}

fn stack_with(alloc: Global, raw: &RawCrash, row: &Row<'_>) -> Result<String, Fault> {
    let texts = texts(alloc, row)?;
    stack_by(alloc, raw, &texts, row)
}

fn stack_by(
    alloc: Global,
    raw: &RawCrash,
    texts: &KitText,
    row: &Row<'_>,
) -> Result<String, Fault> {
    let kit = Kit::read(alloc, texts, &mut RegexMaker::new())?;
    match stack_text(alloc, &kit, &caller(row)?, raw)? {
        Some(text) => row.within(alloc, str::from_utf8(text.as_slice())?),
        None => copy(alloc, "no dump"),
    }
}

fn caller(row: &Row<'_>) -> Result<Caller, Fault> {
    let mut permissions = Permissions::public();
    if row.cell("sees")? == "all" {
        permissions.add(Permission::ProtectedData);
    }
    Ok(Caller {
        permissions,
        products: Products::All,
    })
}
