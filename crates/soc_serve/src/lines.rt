//! The lines that the service ends with.
ghost use Rattle.std.specs.Prelude.{◌≡◌, IfOk, IsErrOf};
ghost use Rattle.soc_edge.specs.Told.{OnlyWrites, WriteFailed};
ghost use Rattle.soc_serve.specs.Lines.{Tells, lines_of};

use soc_base::NoMemory;
use soc_edge::{Sink, write_all};
use soc_replay::push_line;
use std::alloc::Global;

/// What became of the lines.
#[derive(Clone, Copy, Debug, PartialEq, Eq)]
pub enum LinesFault {
    /// The output failed.
    Cut,
    /// An allocation was refused, and nothing was written.
    NoMemory,
}

/// Writes how many crashes are held and how many of them have a report.
pub(crate) fn tell_counts<K: Sink>(
    alloc: Global,
    output: &mut K,
    crashes: u32,
    reports: u32,
) -> Result<(), LinesFault>
    ensures tells { Tells (K.told output.old) (K.told output.new)
        (lines_of crashes reports) result }
    ensures cause { IsErrOf result LinesFault.Cut
        → WriteFailed (K.told output.old) (K.told output.new) }
    ensures only { OnlyWrites (K.told output.old) (K.told output.new) }
{
    let Ok(text) = counts_text(alloc, crashes, reports) else {
        return Err(LinesFault::NoMemory);
    };
    match write_all(output, text.as_slice()) {
        Ok(()) => Ok(()),
        Err(_) => Err(LinesFault::Cut),
    }
}

/// How many crashes are held, and how many of them have a report, each on a line.
pub(crate) fn counts_text(alloc: Global, crashes: u32, reports: u32) -> Result<Vec<u8>, NoMemory>
    ensures { IfOk result (λ text. text.items ≡ lines_of crashes reports) }
{
    let mut text = Vec::new(alloc);
    push_line(&mut text, b"crashes ", u64::from(crashes))?;
    push_line(&mut text, b"reports ", u64::from(reports))?;
    Ok(text)
}
