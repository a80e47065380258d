//! Walks of the stack of the thread that crashed.
use crate::fault::Fault;
use crate::files::dump_file;
use crate::harness::{Work, time};
use crate::kits::texts_for;
use soc_dump::Dump;
use soc_report::{Kit, KitText};
use soc_siglists::RegexMaker;
use soc_walk::{Process, Start, Symbols, start_of};
use std::alloc::Global;
use std::rt::Files;
use std::time::CpuClock;

/// A walk, which finds the modules' ids and symbols anew each time. It counts the frames.
#[derive(Drop)]
struct Walks<'a, 'f, Y: Symbols> {
    dump: &'a Dump<'f>,
    start: &'a Start,
    symbols: &'a Y,
}

impl<Y: Symbols> Work for Walks<'_, '_, Y> {
    fn once(&mut self, alloc: Global) -> Result<u64, Fault> {
        let process = Process::new(alloc, self.dump, self.start.architecture, self.symbols)?;
        Ok(process.walk(alloc, &self.start.values)?.len() as u64)
    }
}

/// Walks the crashing thread of a dump, which is a file or a made one, with the texts that its words name.
pub fn run<R: Files + CpuClock + Print + Eprint + AllocGlobal>(
    rt: &R,
    words: &[String],
) -> Result<(), Fault> {
    let [dump, rest @ ..] = words else {
        return Err(Fault::Words);
    };
    let file = dump_file(rt, dump.as_str())?;
    walk_file(rt, file.as_slice(), &texts_for(rt, dump.as_str(), rest)?)
}

fn walk_file<R: CpuClock + Print + Eprint + AllocGlobal>(
    rt: &R,
    file: &[u8],
    texts: &KitText,
) -> Result<(), Fault> {
    let kit = Kit::read(rt.alloc(), texts, &mut RegexMaker::new())?;
    walk_with(rt, file, &kit)
}

fn walk_with<R: CpuClock + Print + Eprint + AllocGlobal>(
    rt: &R,
    file: &[u8],
    kit: &Kit<'_>,
) -> Result<(), Fault> {
    let dump = Dump::read(rt.alloc(), file)?;
    walk_dump(rt, &dump, kit)
}

fn walk_dump<R: CpuClock + Print + Eprint + AllocGlobal>(
    rt: &R,
    dump: &Dump<'_>,
    symbols: &Kit<'_>,
) -> Result<(), Fault> {
    match start_of(dump, crashing_thread(dump)) {
        Some(start) => time(
            rt,
            "walk",
            "walks",
            1,
            &mut Walks {
                dump,
                start: &start,
                symbols,
            },
        ),
        None => Err(Fault::from("no thread to walk")),
    }
}

/// The place of the thread that the exception names, or of the first.
fn crashing_thread(dump: &Dump<'_>) -> usize {
    let Some(exception) = dump.exception() else {
        return 0;
    };
    let threads = dump.threads();
    for place in 0..threads.len() {
        if threads[place].id == exception.thread {
            return place;
        }
    }
    0
}
