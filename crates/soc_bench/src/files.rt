//! Files that are given by name, and made dumps by their kinds.
use crate::fault::Fault;
use crate::made_dump::{made_dump, made_named};
use std::fs;
use std::rt::Files;

/// The bytes of a made dump, or of a file.
pub fn dump_file<R: Files + AllocGlobal>(rt: &R, name: &str) -> Result<Vec<u8>, Fault> {
    match made_named(name) {
        Some(made) => Ok(made_dump(rt.alloc(), made)?),
        None => Ok(fs::read(rt, name)?),
    }
}
