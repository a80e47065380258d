//! Signatures of a stack of a thousand frames under thirteen hundred patterns.
use crate::fault::Fault;
use crate::harness::{Work, time};
use crate::lists::{irrelevant_list, prefix_frame, prefix_list};
use soc_base::{Text, TextList};
use soc_siglists::{Lists, RegexMaker};
use soc_sigrules::{SigInput, signature};
use std::alloc::Global;
use std::time::CpuClock;

/// How many frames a stack has.
const FRAMES: usize = 1_000;

/// A crash whose signature is made. It counts the signature's bytes.
#[derive(Drop)]
struct Signs<'a> {
    lists: &'a Lists,
    input: &'a SigInput,
}

impl Work for Signs<'_> {
    fn once(&mut self, alloc: Global) -> Result<u64, Fault> {
        Ok(
            signature(alloc, self.input, self.lists)?
                .text
                .as_str()
                .len() as u64,
        )
    }
}

/// Makes signatures of one stack, in which each frame is a prefix.
pub fn run<R: CpuClock + Print + Eprint + AllocGlobal>(
    rt: &R,
    words: &[String],
) -> Result<(), Fault> {
    if !words.is_empty() {
        return Err(Fault::Words);
    }
    let lists = made_lists(rt.alloc())?;
    sign(rt, &lists)
}

fn sign<R: CpuClock + Print + Eprint + AllocGlobal>(rt: &R, lists: &Lists) -> Result<(), Fault> {
    let input = &made_input(rt.alloc())?;
    time(
        rt,
        "signature",
        "frames",
        FRAMES,
        &mut Signs { lists, input },
    )
}

fn made_lists(alloc: Global) -> Result<Lists, Fault> {
    let irrelevant = irrelevant_list(alloc)?;
    let prefix = prefix_list(alloc)?;
    Ok(Lists::read(
        alloc,
        &mut RegexMaker::new(),
        irrelevant.as_bytes(),
        prefix.as_bytes(),
        b"",
    )?)
}

/// A crash of which each frame has a prefix of the list.
fn made_input(alloc: Global) -> Result<SigInput, Fault> {
    let mut frames = TextList::new(alloc);
    for number in 0..FRAMES {
        frames.push(Text::from(prefix_frame(alloc, number as u64)?))?;
    }
    Ok(SigInput {
        thread_found: true,
        frames,
        oom: None,
        abort: None,
        shutdown: None,
        ipc: None,
        ipc_browser: false,
        overflow: false,
        hang: false,
        bad_hardware: false,
    })
}
