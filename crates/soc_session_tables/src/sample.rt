//! A desk that keeps nothing, and gives the replies that a row chooses.
ghost use Rattle.std.specs.Prelude.{◌≡◌, [], ◌∷◌, codes, IfOk};
ghost use Rattle.soc_schema.specs.Fields.{product_field};
ghost use Rattle.soc_schema.specs.Rows.{cell};
ghost use Rattle.soc_desk.specs.Kinds.{IsReplyTo};

use soc_base::{Bytes, NoMemory, Text, Texts};
use soc_desk::{Command, Counts, Desk, Receipt, Refusal, Reply};
use soc_query::{Answer, Facets, Fields, Hits, Query};
use soc_raw::{CrashId, Digit, RawCrash, RecordError};
use soc_schema::{Caller, Field, Permission, Permissions, Row, Value};
use soc_session::Stacks;
use soc_tops::{Top, TopList, Tops, TopsQuery};
use std::alloc::Global;

/// What a sample desk answers: a reply of the command's own, another of these, or a refusal. A command that has no such
/// refusal is answered as by want of memory.
#[derive(Clone, Copy)]
pub(crate) enum Choice {
    Own,
    Other,
    StoreFault,
    JournalFull,
    OtherContent,
    NoCrash,
    NotProcessed,
    TooManyCrashes,
    Altered,
    Withdrawn,
    NoMemory,
}

/// The choice of a name.
pub(crate) fn choice_of(name: &str) -> Choice {
    match name {
        "Other" => Choice::Other,
        "StoreFault" => Choice::StoreFault,
        "JournalFull" => Choice::JournalFull,
        "OtherContent" => Choice::OtherContent,
        "NoCrash" => Choice::NoCrash,
        "NotProcessed" => Choice::NotProcessed,
        "TooManyCrashes" => Choice::TooManyCrashes,
        "Altered" => Choice::Altered,
        "Withdrawn" => Choice::Withdrawn,
        "NoMemory" => Choice::NoMemory,
        _ => Choice::Own,
    }
}

/// A desk that keeps nothing.
#[derive(Drop)]
pub(crate) struct Sample {
    pub(crate) alloc: Global,
    pub(crate) choice: Choice,
}

impl Desk for Sample {
    ghost use Rattle.std.specs.Prelude.{⊤};

    ghost Allows = { λ desk command. ⊤ };

    ghost Asks = { λ before command receipt after. ⊤ };

    ghost allows_others = { λ desk command needs. tt };

    fn ask(&mut self, command: Command) -> Receipt {
        let reply = reply_to(self.alloc, self.choice, command);
        Receipt {
            front: 0,
            stopped: matches!(reply, Reply::Stopping),
            reply,
        }
    }
}

fn reply_to(alloc: Global, choice: Choice, command: Command) -> Reply
    ensures { IsReplyTo command result }
{
    match command {
        Command::Submit { raw } => submitted(choice, &raw),
        Command::Priority { caller, id } => prioritised(choice, caller, id),
        Command::Reprocess { caller, id } => reprocessed(choice, caller, id),
        Command::Withdraw { caller, id } => withdrawn(choice, caller, id),
        Command::Raw { caller, id } => annotations(alloc, choice, caller, id),
        Command::Processed { caller, id } => row(alloc, choice, caller, id),
        Command::Dump { caller, id, name } => dump(alloc, choice, caller, id, name),
        Command::Stack { caller, id } => record(alloc, choice, caller, id),
        Command::Search { query } => found(alloc, query),
        Command::Tops { query } => tops(alloc, query),
        Command::Turn { caller } => turned(choice, caller),
        Command::Drain { caller } => drained(choice, caller),
        Command::Stop { caller } => stopping(caller),
        Command::Fetch { id } => fetched(id),
        Command::Finish { .. } => Reply::Finished { changed: false },
        Command::Counts { caller } => counted(choice, caller),
    }
}

fn submitted(choice: Choice, raw: &RawCrash) -> Reply
    ensures { IsReplyTo (Command.Submit raw.now) result }
{
    let id = raw.id;
    match choice {
        Choice::Own => stored(raw),
        Choice::Other => Reply::Repeated { id },
        Choice::StoreFault => Reply::Refused(Refusal::StoreFault),
        Choice::JournalFull => Reply::Refused(Refusal::JournalFull),
        Choice::OtherContent => Reply::Refused(Refusal::OtherContent { id }),
        Choice::TooManyCrashes => Reply::Refused(Refusal::TooManyCrashes),
        Choice::Withdrawn => Reply::Refused(Refusal::Withdrawn { id }),
        _ => Reply::Refused(Refusal::NoMemory),
    }
}

fn stored(raw: &RawCrash) -> Reply
    ensures { IsReplyTo (Command.Submit raw.now) result }
{
    let id = raw.id;
    match id.digit() {
        Digit::Accepted => Reply::Stored { id, due: true },
        Digit::Deferred => Reply::Stored { id, due: false },
    }
}

fn prioritised(choice: Choice, caller: Caller, id: CrashId) -> Reply
    ensures { IsReplyTo (Command.Priority caller id) result }
{
    match choice {
        Choice::Own => Reply::Asked {
            asked: true,
            due: true,
        },
        Choice::Other => Reply::Asked {
            asked: false,
            due: false,
        },
        Choice::StoreFault => Reply::Refused(Refusal::StoreFault),
        Choice::JournalFull => Reply::Refused(Refusal::JournalFull),
        Choice::NoCrash => Reply::Refused(Refusal::NoCrash),
        _ => Reply::Refused(Refusal::NoMemory),
    }
}

fn reprocessed(choice: Choice, caller: Caller, id: CrashId) -> Reply
    ensures { IsReplyTo (Command.Reprocess caller id) result }
{
    if !caller.permissions.has(Permission::ReprocessCrashes) {
        return Reply::Refused(Refusal::NoPermission {
            name: Permission::ReprocessCrashes,
        });
    }
    match choice {
        Choice::Own => Reply::Asked {
            asked: true,
            due: true,
        },
        Choice::NoCrash => Reply::Refused(Refusal::NoCrash),
        _ => Reply::Refused(Refusal::NoMemory),
    }
}

fn withdrawn(choice: Choice, caller: Caller, id: CrashId) -> Reply
    ensures { IsReplyTo (Command.Withdraw caller id) result }
{
    if !caller.permissions.has(Permission::Operate) {
        return Reply::Refused(Refusal::NoPermission {
            name: Permission::Operate,
        });
    }
    match choice {
        Choice::Own => Reply::Withdrawn,
        Choice::JournalFull => Reply::Refused(Refusal::JournalFull),
        _ => Reply::Refused(Refusal::NoMemory),
    }
}

/// One annotation that everybody may see.
fn raw_reply(alloc: Global) -> Result<Texts, NoMemory>
    ensures { IfOk result (λ texts. texts ≡ (codes "ProductName", codes "Fire\"fox") ∷ []) }
{
    let mut texts = Texts::new(alloc);
    texts.set(
        Text::of(alloc, "ProductName")?,
        Text::of(alloc, "Fire\"fox")?,
    )?;
    Ok(texts)
}

fn annotations(alloc: Global, choice: Choice, caller: Caller, id: CrashId) -> Reply
    ensures { IsReplyTo (Command.Raw caller id) result }
{
    match choice {
        Choice::Own => match raw_reply(alloc) {
            Ok(texts) => Reply::Raw(texts),
            Err(NoMemory) => Reply::Refused(Refusal::NoMemory),
        },
        Choice::StoreFault => Reply::Refused(Refusal::StoreFault),
        Choice::NoCrash => Reply::Refused(Refusal::NoCrash),
        Choice::Altered => Reply::Refused(Refusal::Altered { id }),
        _ => Reply::Refused(Refusal::NoMemory),
    }
}

/// A row of one field that everybody may see.
fn row_of(alloc: Global) -> Result<Row, NoMemory>
    ensures { IfOk result (λ row. row ≡ cell product_field (Value.Text (codes "Firefox")) ∷ []) }
{
    let mut row = Row::new(alloc);
    row.set(Field::PRODUCT, Value::text(alloc, "Firefox")?)?;
    Ok(row)
}

fn row(alloc: Global, choice: Choice, caller: Caller, id: CrashId) -> Reply
    ensures { IsReplyTo (Command.Processed caller id) result }
{
    match choice {
        Choice::Own => match row_of(alloc) {
            Ok(row) => Reply::Row(row),
            Err(NoMemory) => Reply::Refused(Refusal::NoMemory),
        },
        Choice::NoCrash => Reply::Refused(Refusal::NoCrash),
        Choice::NotProcessed => Reply::Refused(Refusal::NotProcessed),
        _ => Reply::Refused(Refusal::NoMemory),
    }
}

/// A dump whose bytes are its name's.
fn dump(alloc: Global, choice: Choice, caller: Caller, id: CrashId, name: Text) -> Reply
    ensures { IsReplyTo (Command.Dump caller id name) result }
{
    if !caller.permissions.has(Permission::ViewRawdump) {
        return Reply::Refused(Refusal::NoPermission {
            name: Permission::ViewRawdump,
        });
    }
    match choice {
        Choice::Own => match Bytes::of(alloc, name.as_str().as_bytes()) {
            Ok(bytes) => Reply::Dump(bytes),
            Err(NoMemory) => Reply::Refused(Refusal::NoMemory),
        },
        _ => Reply::Refused(Refusal::NoCrash),
    }
}

/// The record of a crash of `de1bb258-cbbf-4589-a673-34f800160918` with this draw, and without annotations and dumps.
fn record_of(alloc: Global, draw: u64) -> Result<Vec<u8>, NoMemory> {
    let mut record = Vec::new(alloc);
    record.extend_from_slice(b"de1bb258-cbbf-4589-a673-34f800160918")?;
    record.extend_from_slice(&1_474_156_800_u64.to_le_bytes())?;
    record.extend_from_slice(&draw.to_le_bytes())?;
    record.extend_from_slice(b"\x01\0\0\0r\0\0\0\0\0\0\0\0")?;
    Ok(record)
}

fn raw_of(alloc: Global, draw: u64) -> Result<RawCrash, RecordError> {
    RawCrash::decode(alloc, record_of(alloc, draw)?.as_slice())
}

fn given(raw: Result<RawCrash, RecordError>, caller: Caller, id: CrashId) -> Reply
    ensures { IsReplyTo (Command.Stack caller id) result }
{
    match raw {
        Ok(raw) => {
            if raw.id == id {
                Reply::Record(raw)
            } else {
                Reply::Refused(Refusal::NoCrash)
            }
        }
        Err(_) => Reply::Refused(Refusal::NoMemory),
    }
}

/// A raw crash of draw 1, or another of draw 0.
fn record(alloc: Global, choice: Choice, caller: Caller, id: CrashId) -> Reply
    ensures { IsReplyTo (Command.Stack caller id) result }
{
    match choice {
        Choice::Own => given(raw_of(alloc, 1), caller, id),
        Choice::Other => given(raw_of(alloc, 0), caller, id),
        Choice::StoreFault => Reply::Refused(Refusal::StoreFault),
        Choice::NoCrash => Reply::Refused(Refusal::NoCrash),
        Choice::Altered => Reply::Refused(Refusal::Altered { id }),
        _ => Reply::Refused(Refusal::NoMemory),
    }
}

/// An answer without hits, of a query without facets.
fn found(alloc: Global, query: Query) -> Reply
    ensures { IsReplyTo (Command.Search query) result }
{
    if !query.facets().is_empty() {
        return Reply::Refused(Refusal::NoMemory);
    }
    match Vec::from_slice(alloc, query.columns()) {
        Ok(columns) => Reply::Found(Answer {
            total: 3,
            columns: Fields::from(columns),
            hits: Hits::new(alloc),
            facets: Facets::new(alloc),
        }),
        Err(_) => Reply::Refused(Refusal::NoMemory),
    }
}

fn top(alloc: Global) -> Result<Tops, NoMemory> {
    let mut tops = TopList::new(alloc);
    tops.push(Top {
        signature: Text::of(alloc, "f<T>")?,
        count: 2,
        rank: 1,
        old_count: 0,
        old_rank: None,
    })?;
    Ok(Tops { total: 3, tops })
}

fn tops(alloc: Global, query: TopsQuery) -> Reply
    ensures { IsReplyTo (Command.Tops query) result }
{
    match top(alloc) {
        Ok(tops) => Reply::Tops(tops),
        Err(NoMemory) => Reply::Refused(Refusal::NoMemory),
    }
}

fn turned(choice: Choice, caller: Caller) -> Reply
    ensures { IsReplyTo (Command.Turn caller) result }
{
    if !caller.permissions.has(Permission::Operate) {
        return Reply::Refused(Refusal::NoPermission {
            name: Permission::Operate,
        });
    }
    match choice {
        Choice::Own => Reply::Turned(CrashId::parse("de1bb258-cbbf-4589-a673-34f800160918")),
        Choice::Other => Reply::Turned(None),
        Choice::StoreFault => Reply::Refused(Refusal::StoreFault),
        _ => Reply::Refused(Refusal::NoMemory),
    }
}

fn drained(choice: Choice, caller: Caller) -> Reply
    ensures { IsReplyTo (Command.Drain caller) result }
{
    if !caller.permissions.has(Permission::Operate) {
        return Reply::Refused(Refusal::NoPermission {
            name: Permission::Operate,
        });
    }
    match choice {
        Choice::Own => Reply::Drained(u64::MAX),
        _ => Reply::Refused(Refusal::NoMemory),
    }
}

fn stopping(caller: Caller) -> Reply
    ensures { IsReplyTo (Command.Stop caller) result }
{
    if !caller.permissions.has(Permission::Operate) {
        return Reply::Refused(Refusal::NoPermission {
            name: Permission::Operate,
        });
    }
    Reply::Stopping
}

/// Counts that differ from one another, the largest of each, or a log in doubt.
fn counted(choice: Choice, caller: Caller) -> Reply
    ensures { IsReplyTo (Command.Counts caller) result }
{
    if !caller.permissions.has(Permission::Operate) {
        return Reply::Refused(Refusal::NoPermission {
            name: Permission::Operate,
        });
    }
    Reply::Counted(Counts {
        asks: u64::MAX,
        crashes: u32::MAX,
        due: 2,
        journal_size: 3,
        reports: 4,
        withdrawn: 5,
        in_doubt: matches!(choice, Choice::Other),
    })
}

fn fetched(id: CrashId) -> Reply
    ensures { IsReplyTo (Command.Fetch id) result }
{
    Reply::Refused(Refusal::NoCrash)
}

/// The stacks of raw crashes by their draws: of draw 0 none.
#[derive(Drop)]
pub(crate) struct SampleStacks;

impl Stacks for SampleStacks {
    ghost use Rattle.std.specs.Prelude.{None, Some, codes, ◌==◌, if◌then◌else◌};

    ghost stack_of = { λ _ shown crash. if crash.draw == 0 then None
        else if shown.protected_data then Some (codes "{\"address\":\"0x10\"}")
        else Some (codes "{\"address\":null}") };

    fn stack(
        &self,
        alloc: Global,
        shown: Permissions,
        raw: &RawCrash,
    ) -> Result<Option<Bytes>, NoMemory> {
        if raw.draw == 0 {
            return Ok(None);
        }
        let stack: &[u8] = if shown.protected_data {
            b"{\"address\":\"0x10\"}"
        } else {
            b"{\"address\":null}"
        };
        Ok(Some(Bytes::of(alloc, stack)?))
    }
}
