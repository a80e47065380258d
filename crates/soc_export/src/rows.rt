//! The rows that a caller sees of a desk's log, once the reports that are missing are made.
ghost use Rattle.std.specs.Prelude.{◌≡◌, IfOk, IsTrue, List};
ghost use Rattle.soc_edge.specs.Disk.{Looks};
ghost use Rattle.soc_edge.specs.Told.{OnlyWrites, WriteFailed};
ghost use Rattle.soc_desk.specs.Basis.{Basis};
ghost use Rattle.soc_desk.specs.Log.{Change};
ghost use Rattle.soc_desk.specs.State.{State, settled};
ghost use Rattle.soc_desk.specs.View.{view_of};
ghost use Rattle.soc_book.specs.Books.{StandsFor, disk_of, lent_to, reporter_of};
ghost use Rattle.soc_export.specs.Ends.{TellsLog};
ghost use Rattle.soc_export.specs.Lines.{lines_of, row_line};
ghost use Rattle.soc_export.specs.inner.Telling.{TellsLines, TellsPiece, TellsReply, drain_end, end_of, piece_in, refused_end};

use crate::ending::{ExportEnd, RowEnd};
use soc_base::NoMemory;
use soc_book::Book;
use soc_desk::{Refusal, Reply};
use soc_edge::{Disk, Failed, Sink, write_all};
use soc_raw::CrashId;
use soc_schema::{Caller, Reporter, Row, put_row};
use std::alloc::Global;

/// Makes the reports of the crashes that are due, and writes the rows that the caller sees, in rising order of ids, each as a
/// JSON object on a line. Nothing is kept.
pub fn tell_log<D: Disk, R: Reporter, K: Sink>(
    alloc: Global,
    book: &mut Book<'_, D, R>,
    caller: &Caller,
    output: &mut K,
) -> ExportEnd
    ensures same_disk { lent_to book.new ≡ lent_to book.old }
    ensures looks { Looks (disk_of book.old) (disk_of book.new) }
    ensures tells { (basis : Basis) (log : List Change)
        → basis.row_of ≡ R.row_of (reporter_of book.old)
        → StandsFor basis book.old (settled log) → TellsLog basis log caller.now
        (K.told output.old) (K.told output.new) (disk_of book.old) (disk_of book.new) result }
    ensures only { OnlyWrites (K.told output.old) (K.told output.new) }
    ensures cause { result ≡ ExportEnd.Cut → WriteFailed (K.told output.old) (K.told output.new) }
{
    let drained = drain_end(&book.drain());
    match drained {
        Ok(()) => end_of(tell_rows(alloc, book, caller, output)),
        Err(end) => end,
    }
}

/// Whether all that was due was processed.
fn drain_end(reply: &Reply) -> Result<(), ExportEnd>
    ensures { result ≡ drain_end reply.now }
{
    match reply {
        Reply::Drained(_) => Ok(()),
        Reply::Refused(Refusal::StoreFault) => Err(ExportEnd::DiskFault),
        Reply::Refused(Refusal::Altered { id }) => Err(ExportEnd::Altered { id: *id }),
        _ => Err(ExportEnd::NoMemory),
    }
}

fn end_of(end: RowEnd) -> ExportEnd
    ensures { result ≡ end_of end }
{
    match end {
        RowEnd::Written => ExportEnd::Written,
        RowEnd::Cut => ExportEnd::Cut,
        RowEnd::NoMemory => ExportEnd::NoMemory,
    }
}

/// Writes the rows that the caller sees, in rising order of ids.
fn tell_rows<D: Disk, R: Reporter, K: Sink>(
    alloc: Global,
    book: &mut Book<'_, D, R>,
    caller: &Caller,
    output: &mut K,
) -> RowEnd
    ensures same_disk { lent_to book.new ≡ lent_to book.old }
    ensures looks { Looks (disk_of book.old) (disk_of book.new) }
    ensures tells { (basis : Basis) (state : State) → IsTrue basis.is_told
        → StandsFor basis book.old state → TellsLines (K.told output.old) (K.told output.new)
        (lines_of (view_of basis state.log caller.now)) result }
    ensures only { OnlyWrites (K.told output.old) (K.told output.new) }
    ensures cause { result ≡ RowEnd.Cut → WriteFailed (K.told output.old) (K.told output.new) }
{
    let Ok(ids) = book.ids() else {
        return RowEnd::NoMemory;
    };
    for id in ids.as_slice() {
        match tell_row(alloc, book, caller, *id, output) {
            RowEnd::Written => {}
            RowEnd::Cut => return RowEnd::Cut,
            RowEnd::NoMemory => return RowEnd::NoMemory,
        }
    }
    RowEnd::Written
}

/// Writes the row of a crash, where the caller sees one.
fn tell_row<D: Disk, R: Reporter, K: Sink>(
    alloc: Global,
    book: &mut Book<'_, D, R>,
    caller: &Caller,
    id: CrashId,
    output: &mut K,
) -> RowEnd
    ensures same_disk { lent_to book.new ≡ lent_to book.old }
    ensures looks { Looks (disk_of book.old) (disk_of book.new) }
    ensures tells { (basis : Basis) (state : State) → IsTrue basis.is_told
        → StandsFor basis book.old state → StandsFor basis book.new state
        × TellsPiece (K.told output.old) (K.told output.new)
        (piece_in (view_of basis state.log caller.now) id) result }
    ensures only { OnlyWrites (K.told output.old) (K.told output.new) }
    ensures cause { result ≡ RowEnd.Cut → WriteFailed (K.told output.old) (K.told output.new) }
{
    let reply = book.processed(caller, id);
    write_shown(alloc, output, &reply)
}

/// Writes the row of an answer, where it has one.
fn write_shown<K: Sink>(alloc: Global, output: &mut K, reply: &Reply) -> RowEnd
    ensures tells { TellsReply (K.told output.old) (K.told output.new) reply.now result }
    ensures cause { result ≡ RowEnd.Cut → WriteFailed (K.told output.old) (K.told output.new) }
    ensures only { OnlyWrites (K.told output.old) (K.told output.new) }
{
    match reply {
        Reply::Row(row) => write_row(alloc, output, row),
        Reply::Refused(refusal) => refused_end(*refusal),
        _ => RowEnd::NoMemory,
    }
}

/// A crash that isn't shown, or has no report, has no row.
fn refused_end(refusal: Refusal) -> RowEnd
    ensures { result ≡ refused_end refusal }
{
    match refusal {
        Refusal::NoCrash | Refusal::NotProcessed => RowEnd::Written,
        _ => RowEnd::NoMemory,
    }
}

/// Writes a row on a line.
fn write_row<K: Sink>(alloc: Global, output: &mut K, row: &Row) -> RowEnd
    ensures tells { TellsPiece (K.told output.old) (K.told output.new) (row_line row.now) result }
    ensures cause { result ≡ RowEnd.Cut → WriteFailed (K.told output.old) (K.told output.new) }
    ensures only { OnlyWrites (K.told output.old) (K.told output.new) }
{
    let Ok(line) = row_line(alloc, row) else {
        return RowEnd::NoMemory;
    };
    match write_all(output, line.as_slice()) {
        Ok(()) => RowEnd::Written,
        Err(Failed) => RowEnd::Cut,
    }
}

/// The row as a JSON object, and a line feed.
fn row_line(alloc: Global, row: &Row) -> Result<Vec<u8>, NoMemory>
    ensures { IfOk result (λ line. line.items ≡ row_line row.now) }
{
    let mut line = Vec::new(alloc);
    put_row(alloc, &mut line, row)?;
    line.push(b'\n')?;
    Ok(line)
}
