//! Rows made of crashes, and stacks made of them as JSON.
use crate::crashes::made_crash;
use crate::fault::Fault;
use crate::files::dump_file;
use crate::harness::{Work, time};
use crate::kits::{kit_text, texts_for};
use soc_raw::RawCrash;
use soc_report::{Kit, KitText, stack_text};
use soc_schema::{Caller, Permissions, Products, Reporter};
use soc_siglists::RegexMaker;
use std::alloc::Global;
use std::rt::Files;
use std::time::CpuClock;

/// A crash whose row is made. It counts the row's fields.
#[derive(Drop)]
struct Rows<'a, Y: Reporter> {
    reporter: &'a Y,
    raw: &'a RawCrash,
}

impl<Y: Reporter> Work for Rows<'_, Y> {
    fn once(&mut self, alloc: Global) -> Result<u64, Fault> {
        Ok(self.reporter.row(alloc, self.raw)?.len() as u64)
    }
}

/// A crash whose stack is made as JSON. It counts the bytes.
#[derive(Drop)]
struct Stacks<'a, 'k> {
    kit: &'a Kit<'k>,
    raw: &'a RawCrash,
    caller: Caller,
}

impl Work for Stacks<'_, '_> {
    fn once(&mut self, alloc: Global) -> Result<u64, Fault> {
        let stack = stack_text(alloc, self.kit, &self.caller, self.raw)?;
        Ok(stack.map_or(0, |text| text.as_slice().len() as u64))
    }
}

/// Makes rows and stacks of a crash without a dump, or with one that is a file or a made one, with the texts that its words
/// name.
pub fn run<R: Files + CpuClock + Print + Eprint + AllocGlobal>(
    rt: &R,
    words: &[String],
) -> Result<(), Fault> {
    let [dump, rest @ ..] = words else {
        return report(rt, None, &kit_text(rt, &[])?);
    };
    let file = dump_file(rt, dump.as_str())?;
    report(
        rt,
        Some(file.as_slice()),
        &texts_for(rt, dump.as_str(), rest)?,
    )
}

fn report<R: Files + CpuClock + Print + Eprint + AllocGlobal>(
    rt: &R,
    dump: Option<&[u8]>,
    texts: &KitText,
) -> Result<(), Fault> {
    let raw = made_crash(rt.alloc(), dump)?;
    report_of(rt, &raw, texts)
}

fn report_of<R: CpuClock + Print + Eprint + AllocGlobal>(
    rt: &R,
    raw: &RawCrash,
    texts: &KitText,
) -> Result<(), Fault> {
    let kit = &Kit::read(rt.alloc(), texts, &mut RegexMaker::new())?;
    time(rt, "report", "rows", 1, &mut Rows { reporter: kit, raw })?;
    let caller = Caller {
        permissions: Permissions::public(),
        products: Products::All,
    };
    time(rt, "stack", "stacks", 1, &mut Stacks { kit, raw, caller })
}
