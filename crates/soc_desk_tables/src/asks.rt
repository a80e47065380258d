//! Acts as commands of a book.
ghost use Rattle.std.specs.Prelude.{IfOk};
ghost use Rattle.std.specs.List.{AllByRecursion};
ghost use Rattle.soc_desk.specs.Kinds.{NeedsNothing};

use crate::acts::{command, processed};
use crate::replies::reply_text;
use soc_book::{Book, Prepared};
use soc_desk::{Command, Desk, Receipt, Reply};
use soc_edge::Disk;
use soc_schema::Reporter;
use soc_tables::{Fault, append, word};
use std::alloc::Global;

/// The receipt of a command that may be asked at any time.
fn receipt_of<K: Desk>(desk: &mut K, command: Command) -> Receipt
    requires { NeedsNothing command }
{
    desk.ask(command)
}

/// The reply to an act.
pub fn reply_to<D: Disk, R: Reporter>(
    alloc: Global,
    book: &mut Book<'_, D, R>,
    act: &str,
) -> Result<Reply, Fault> {
    match word(act, 0) {
        "keep" => Ok(book.keep()),
        "finish" => Ok(book.finish(processed(alloc, word(act, 1))?)),
        _ => Ok(receipt_of(book, command(alloc, act)?).reply),
    }
}

/// What acts are answered in order.
pub fn answers<D: Disk, R: Reporter>(
    alloc: Global,
    book: &mut Book<'_, D, R>,
    acts: &str,
) -> Result<String, Fault> {
    let mut text = String::new(alloc);
    for act in acts.split(',') {
        let reply = reply_to(alloc, book, act)?;
        append(&mut text, reply_text(alloc, &reply)?.as_str())?;
    }
    Ok(text)
}

/// The receipts of acts in order: the reply, how many changes there are, and whether the log has a stop.
pub fn receipts<D: Disk, R: Reporter>(
    alloc: Global,
    book: &mut Book<'_, D, R>,
    acts: &str,
) -> Result<String, Fault> {
    let mut text = String::new(alloc);
    for act in acts.split(',') {
        let receipt = receipt_of(book, command(alloc, act)?);
        append(&mut text, receipt_text(alloc, &receipt)?.as_str())?;
    }
    Ok(text)
}

/// The same of acts that are asked at once.
pub fn receipts_at_once<D: Disk, R: Reporter>(
    alloc: Global,
    book: &mut Book<'_, D, R>,
    acts: &str,
) -> Result<String, Fault> {
    let receipts = book.ask_all(commands(alloc, acts)?)?;
    let mut text = String::new(alloc);
    for receipt in &receipts {
        append(&mut text, receipt_text(alloc, receipt)?.as_str())?;
    }
    Ok(text)
}

/// The commands of acts, which may be asked at any time.
fn commands(alloc: Global, acts: &str) -> Result<Vec<Prepared>, Fault>
    ensures { IfOk result (λ commands. AllByRecursion NeedsNothing commands.items) }
{
    let mut commands = Vec::new(alloc);
    for act in acts.split(',') {
        commands.push(Prepared::new(alloc, command(alloc, act)?))?;
    }
    Ok(commands)
}

fn receipt_text(alloc: Global, receipt: &Receipt) -> Result<String, Fault> {
    let stopped = if receipt.stopped { ", stopped" } else { "" };
    let reply = reply_text(alloc, &receipt.reply)?;
    Ok(format!(in alloc; "{} at {}{stopped}", reply.as_str(), receipt.front)?)
}
