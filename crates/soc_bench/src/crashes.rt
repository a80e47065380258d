//! Made crashes.
use crate::fault::Fault;
use soc_raw::RawCrash;
use std::alloc::{AllocError, Global};

/// A second of September 2016.
const MOMENT: u64 = 1_474_156_800;

/// What each crash says, in the order of the names.
const ANNOTATIONS: [(&str, &str); 17] = [
    ("AdapterDeviceID", "0x0a16"),
    ("AdapterVendorID", "0x8086"),
    (
        "Add-ons",
        "formautofill%40mozilla.org:1.0.1,screenshots%40mozilla.org:39.0.1,webcompat%40mozilla.org:133.4.0",
    ),
    ("AvailablePageFile", "17179869184"),
    ("BuildID", "20260918000000"),
    ("Comments", "it crashed again when I opened the page"),
    ("CrashTime", "1474156800"),
    ("InstallTime", "1474100000"),
    ("MozCrashReason", "MOZ_RELEASE_ASSERT(mState)"),
    ("ProcessType", "content"),
    ("ProductName", "Firefox"),
    ("ReleaseChannel", "release"),
    ("StartupCrash", "0"),
    ("StartupTime", "1474156000"),
    ("URL", "https://www.example.org/a/page"),
    ("Version", "150.0.1"),
    ("ipc_channel_error", "ShutDownKill"),
];

/// A crash, with a dump where one is given.
pub fn made_crash(alloc: Global, dump: Option<&[u8]>) -> Result<RawCrash, Fault> {
    let mut record = Vec::from_slice(alloc, b"00000001-0000-4000-8000-000000160918")?;
    record.extend_from_slice(&MOMENT.to_le_bytes())?;
    record.extend_from_slice(&0u64.to_le_bytes())?;
    put(&mut record, b"accept_all")?;
    put_count(&mut record, ANNOTATIONS.len())?;
    for (name, value) in &ANNOTATIONS {
        put(&mut record, name.as_bytes())?;
        put(&mut record, value.as_bytes())?;
    }
    match dump {
        Some(dump) => {
            put_count(&mut record, 1)?;
            put(&mut record, b"upload_file_minidump")?;
            put(&mut record, dump)?;
        }
        None => put_count(&mut record, 0)?,
    }
    Ok(RawCrash::decode(alloc, record.as_slice())?)
}

/// A crash of a number, whose record has 1,024 bytes.
pub fn crash_of(alloc: Global, number: u64) -> Result<RawCrash, Fault> {
    let id = format!(in alloc; "{number:08x}-0000-4000-8000-000000160918")?;
    let mut record = Vec::from_slice(alloc, id.as_bytes())?;
    record.extend_from_slice(&MOMENT.to_le_bytes())?;
    record.extend_from_slice(&0u64.to_le_bytes())?;
    put(&mut record, b"accept_all")?;
    put_count(&mut record, 1)?;
    put(&mut record, b"Comments")?;
    put(&mut record, &[b'x'; 934])?;
    put_count(&mut record, 0)?;
    Ok(RawCrash::decode(alloc, record.as_slice())?)
}

/// A text or a dump of a record.
fn put(record: &mut Vec<u8>, bytes: &[u8]) -> Result<(), AllocError> {
    put_count(record, bytes.len())?;
    record.extend_from_slice(bytes)
}

/// A number of a record, in four bytes.
fn put_count(record: &mut Vec<u8>, count: usize) -> Result<(), AllocError> {
    let [a, b, c, d, ..] = (count as u64).to_le_bytes();
    record.extend_from_slice(&[a, b, c, d])
}
