//! Made dumps of 16 MiB: read, and made ready for walks.
use crate::fault::Fault;
use crate::harness::{Work, time};
use crate::made_dump::{made_dump, made_named};
use soc_dump::Dump;
use std::alloc::Global;
use std::time::CpuClock;

/// A dump that is read. It counts the modules.
#[derive(Drop)]
struct Reads<'a>(&'a [u8]);

impl Work for Reads<'_> {
    fn once(&mut self, alloc: Global) -> Result<u64, Fault> {
        Ok(Dump::read(alloc, self.0)?.modules().len() as u64)
    }
}

/// A dump whose tables are made, in which walks look up modules and words.
#[derive(Drop)]
struct Tables<'a, 'f>(&'a Dump<'f>);

impl Work for Tables<'_, '_> {
    fn once(&mut self, alloc: Global) -> Result<u64, Fault> {
        let _modules = self.0.module_table(alloc)?;
        let _words = self.0.words(alloc, 8)?;
        Ok(self.0.modules().len() as u64)
    }
}

/// Reads a made dump, and makes its tables.
pub fn run<R: CpuClock + Print + Eprint + AllocGlobal>(
    rt: &R,
    words: &[String],
) -> Result<(), Fault> {
    let [kind] = words else {
        return Err(Fault::Words);
    };
    let Some(made) = made_named(kind.as_str()) else {
        return Err(Fault::Words);
    };
    let file = made_dump(rt.alloc(), made)?;
    read_file(rt, file.as_slice())
}

fn read_file<R: CpuClock + Print + Eprint + AllocGlobal>(rt: &R, file: &[u8]) -> Result<(), Fault> {
    time(rt, "dump read", "bytes", file.len(), &mut Reads(file))?;
    let dump = Dump::read(rt.alloc(), file)?;
    time(rt, "tables made", "bytes", file.len(), &mut Tables(&dump))
}
