//! Walks of stacks.
use crate::dump::dump_of;
use crate::lists::append;
use soc_base::Items;
use soc_dump::Dump;
use soc_frames::Frame;
use soc_symfile::SymFile;
use soc_tables::{Fault, Row};
use soc_walk::{Symbols, walk};
use std::alloc::Global;

/// The symbols of the two modules of `dump.txt`.
#[derive(Drop)]
struct Kit<'a> {
    xul: SymFile<'a>,
    mozglue: SymFile<'a>,
}

impl<'a> Symbols for Kit<'a> {
    ghost use Rattle.std.specs.Prelude.{if◌then◌else◌, Some, None, codes};
    ghost use Rattle.std.specs.Str.{bytes_eq};

    ghost symbols = { λ kit file id. if bytes_eq file (codes "xul.pdb") then Some kit.xul else if bytes_eq file (codes "mozglue.pdb") then Some kit.mozglue else None };

    fn symbols(&self, debug_file: &str, _debug_id: &str) -> Option<&SymFile<'_>> {
        if debug_file == "xul.pdb" {
            Some(&self.xul)
        } else if debug_file == "mozglue.pdb" {
            Some(&self.mozglue)
        } else {
            None
        }
    }

    fn longest_name(&self) -> usize {
        "mozglue.pdb".len()
    }
}

/// The lines that are the items of a cell.
fn lines(alloc: Global, row: &Row<'_>, name: &str) -> Result<String, Fault> {
    let mut lines = String::new(alloc);
    for item in row.items(alloc, name)? {
        lines.push_str(item.as_str())?;
        lines.push('\n')?;
    }
    Ok(lines)
}

fn kit_of<'a>(alloc: Global, xul: &'a [u8], mozglue: &'a [u8]) -> Result<Kit<'a>, Fault> {
    Ok(Kit {
        xul: SymFile::read(alloc, xul)?,
        mozglue: SymFile::read(alloc, mozglue)?,
    })
}

/// The frames of a dump's first thread: of each how it was found, its instruction pointer and its offset.
pub fn walk_of(alloc: Global, layout: &str, row: &Row<'_>) -> Result<String, Fault> {
    let bytes = dump_of(alloc, layout, row)?;
    walk_over(alloc, bytes.as_slice(), row)
}

fn walk_over(alloc: Global, bytes: &[u8], row: &Row<'_>) -> Result<String, Fault> {
    let dump = Dump::read(alloc, bytes)?;
    walk_with(alloc, &dump, row)
}

fn walk_with(alloc: Global, dump: &Dump<'_>, row: &Row<'_>) -> Result<String, Fault> {
    let xul = lines(alloc, row, "xul")?;
    let mozglue = lines(alloc, row, "mozglue")?;
    walk_by(alloc, dump, xul.as_bytes(), mozglue.as_bytes())
}

fn walk_by(alloc: Global, dump: &Dump<'_>, xul: &[u8], mozglue: &[u8]) -> Result<String, Fault> {
    let kit = kit_of(alloc, xul, mozglue)?;
    let frames = walk(alloc, dump, 0, &kit)?;
    shown(alloc, &frames)
}

fn shown(alloc: Global, frames: &Items<Frame>) -> Result<String, Fault> {
    let mut text = String::new(alloc);
    for place in 0..frames.len() {
        append(
            &mut text,
            "; ",
            frame_text(alloc, frames.at(place))?.as_str(),
        )?;
    }
    Ok(text)
}

fn frame_text(alloc: Global, frame: &Frame) -> Result<String, Fault> {
    Ok(format!(in alloc;
        "{:?} {:#x} {:#x}",
        frame.trust, frame.instruction, frame.offset
    )?)
}
