//! What callers read.
ghost use Rattle.std.specs.Prelude.{◌≡◌, ◌<◌, IfOk};
ghost use Rattle.std.specs.Option.{option_map};
ghost use Rattle.soc_schema.specs.Fields.{permission_of_annotation};
ghost use Rattle.soc_schema.specs.Permits.{granted_annotations, granted_cells};
ghost use Rattle.soc_query.specs.Answers.{answer_of};
ghost use Rattle.soc_store.specs.Stored.{row_at};
ghost use Rattle.soc_tops.specs.Tops.{tops_of};
ghost use Rattle.soc_desk.specs.Kinds.{IsReplyTo};
ghost use Rattle.soc_edge.specs.Disk.{Looks};
ghost use Rattle.soc_book.specs.Books.{SameSetting, Serves, ServesByRows, disk_of};
ghost use Rattle.soc_book.specs.inner.Books.{reply_of};

use crate::book::Book;
use crate::commands::{check, reply_of};
use soc_base::{Bytes, NoMemory, Text, Texts};
use soc_desk::{Command, Refusal, Reply};
use soc_edge::{Disk, Steps};
use soc_query::{Answer, Query};
use soc_raw::CrashId;
use soc_schema::{Caller, Field, Permission, Reporter, Row};
use soc_search::{
    answer_of, answers_by_what_is_seen, answers_in_any_order, tops_by_what_is_seen,
    tops_in_any_order, tops_of,
};
use soc_store::Store;
use soc_tops::{Tops, TopsQuery};
use std::alloc::Global;
use std::marker::Brand;
use std::sync::ledger::{Blank, Ledger};

impl<'a, D: Disk, R: Reporter> Book<'a, D, R> {
    /// The granted annotations of a crash.
    pub fn raw(&mut self, caller: &Caller, id: CrashId) -> Reply
        ensures setting { SameSetting self.old self.new }
        ensures kind { IsReplyTo (Command.Raw caller.now id) result }
        ensures does { Serves self.old (Command.Raw caller.now id) result self.new }
    {
        reply_of(self.annotations(caller, id))
    }

    /// The granted fields of a crash's report.
    pub fn processed(&mut self, caller: &Caller, id: CrashId) -> Reply
        ensures setting { SameSetting self.old self.new }
        ensures looks { Looks (disk_of self.old) (disk_of self.new) }
        ensures kind { IsReplyTo (Command.Processed caller.now id) result }
        ensures does { Serves self.old (Command.Processed caller.now id) result self.new }
    {
        reply_of(self.report(caller, id))
    }

    /// A dump's bytes.
    pub fn dump(&mut self, caller: &Caller, id: CrashId, name: &str) -> Reply
        ensures setting { SameSetting self.old self.new }
        ensures kind { IsReplyTo (Command.Dump caller.now id name.now) result }
        ensures does { Serves self.old (Command.Dump caller.now id name.now) result self.new }
    {
        reply_of(self.dump_bytes(caller, id, name))
    }

    /// The raw crash of a crash that the caller may see.
    pub fn stack(&mut self, caller: &Caller, id: CrashId) -> Reply
        ensures setting { SameSetting self.old self.new }
        ensures kind { IsReplyTo (Command.Stack caller.now id) result }
        ensures does { Serves self.old (Command.Stack caller.now id) result self.new }
    {
        reply_of(self.record(caller, id))
    }

    /// The answer to a query.
    pub fn search(&mut self, query: &Query) -> Reply
        ensures setting { SameSetting self.old self.new }
        ensures kind { IsReplyTo (Command.Search query.now) result }
        ensures does { ServesByRows self.old (Command.Search query.now) result self.new }
    {
        let _caller = query.caller();
        answers_by_what_is_seen(query);
        answers_in_any_order(query);
        match found::<Brand>(self.alloc, &self.store, query, Blank::new(1)) {
            Ok(answer) => Reply::Found(answer),
            Err(_) => Reply::Refused(Refusal::NoMemory),
        }
    }

    /// The top crashers of a query.
    pub fn tops(&mut self, query: &TopsQuery) -> Reply
        ensures setting { SameSetting self.old self.new }
        ensures kind { IsReplyTo (Command.Tops query.now) result }
        ensures does { ServesByRows self.old (Command.Tops query.now) result self.new }
    {
        tops_by_what_is_seen(query);
        tops_in_any_order(query);
        match top_crashers::<Brand>(self.alloc, &self.store, query, Blank::new(1)) {
            Ok(tops) => Reply::Tops(tops),
            Err(_) => Reply::Refused(Refusal::NoMemory),
        }
    }

    fn annotations(&mut self, caller: &Caller, id: CrashId) -> Result<Reply, Refusal>
        ensures setting { SameSetting self.old self.new }
        ensures kind { IsReplyTo (Command.Raw caller.now id) (reply_of result) }
        ensures does { Serves self.old (Command.Raw caller.now id) (reply_of result) self.new }
    {
        let number = self.seen(caller, id)?;
        let raw = self.read(number)?;
        let shown = granted_annotations(self.alloc, caller, &raw.annotations)?;
        Ok(Reply::Raw(shown))
    }

    fn report(&mut self, caller: &Caller, id: CrashId) -> Result<Reply, Refusal>
        ensures setting { SameSetting self.old self.new }
        ensures looks { Looks (disk_of self.old) (disk_of self.new) }
        ensures kind { IsReplyTo (Command.Processed caller.now id) (reply_of result) }
        ensures does { Serves self.old (Command.Processed caller.now id)
            (reply_of result) self.new }
    {
        let number = self.seen(caller, id)?;
        match row_shown::<Brand>(self.alloc, &self.store, number, caller, Blank::new(1))? {
            Some(row) => Ok(Reply::Row(row)),
            None => Err(Refusal::NotProcessed),
        }
    }

    fn dump_bytes(&mut self, caller: &Caller, id: CrashId, name: &str) -> Result<Reply, Refusal>
        ensures setting { SameSetting self.old self.new }
        ensures kind { IsReplyTo (Command.Dump caller.now id name.now) (reply_of result) }
        ensures does { Serves self.old (Command.Dump caller.now id name.now)
            (reply_of result) self.new }
    {
        check(caller, Permission::ViewRawdump)?;
        let number = self.seen(caller, id)?;
        let raw = self.read(number)?;
        let Some(bytes) = raw.dumps.get(name) else {
            return Err(Refusal::NoCrash);
        };
        Ok(Reply::Dump(Bytes::of(self.alloc, bytes)?))
    }

    fn record(&mut self, caller: &Caller, id: CrashId) -> Result<Reply, Refusal>
        ensures setting { SameSetting self.old self.new }
        ensures kind { IsReplyTo (Command.Stack caller.now id) (reply_of result) }
        ensures does { Serves self.old (Command.Stack caller.now id) (reply_of result) self.new }
    {
        let number = self.seen(caller, id)?;
        let raw = self.read(number)?;
        Ok(Reply::Record(raw))
    }
}

/// The answer to a query over the rows of a store.
fn found<L: Ledger>(
    alloc: Global,
    store: &Store,
    query: &Query,
    blank: Blank,
) -> Result<Answer, NoMemory>
    requires name { blank.name ≡ L.name }
    requires parts { blank.parts ≡ L.parts }
    requires some { 0 < blank.parts }
    ensures { IfOk result (λ answer. answer ≡ answer_of query.now store.now) }
{
    let mut steps: Steps<L> = Steps::new(blank);
    answer_of(alloc, store, query, &mut steps)
}

/// The top crashers among the rows of a store.
fn top_crashers<L: Ledger>(
    alloc: Global,
    store: &Store,
    query: &TopsQuery,
    blank: Blank,
) -> Result<Tops, NoMemory>
    requires name { blank.name ≡ L.name }
    requires parts { blank.parts ≡ L.parts }
    requires some { 0 < blank.parts }
    ensures { IfOk result (λ tops. tops ≡ tops_of query.now store.now) }
{
    let mut steps: Steps<L> = Steps::new(blank);
    tops_of(alloc, store, query, &mut steps)
}

/// The fields of the row at a place that the caller may see, where there is a row.
fn row_shown<L: Ledger>(
    alloc: Global,
    store: &Store,
    place: u32,
    caller: &Caller,
    blank: Blank,
) -> Result<Option<Row>, NoMemory>
    requires name { blank.name ≡ L.name }
    requires parts { blank.parts ≡ L.parts }
    requires some { 0 < blank.parts }
    ensures { IfOk result (λ shown. shown
        ≡ option_map (λ stored. granted_cells caller.now stored.1) (row_at place store.now)) }
{
    let mut steps: Steps<L> = Steps::new(blank);
    match store.row(place, &mut steps) {
        Some(row) => Ok(Some(row.shown(alloc, caller)?)),
        None => Ok(None),
    }
}

/// The annotations that the caller may see, in memory of their own.
fn granted_annotations(
    alloc: Global,
    caller: &Caller,
    annotations: &Texts,
) -> Result<Texts, NoMemory>
    ensures { IfOk result (λ shown. shown ≡ granted_annotations caller.now annotations.now) }
{
    let mut shown = Texts::new(alloc);
    for (name, value) in annotations {
        if caller.permissions.has(permission_of(name)) {
            shown.set(Text::of(alloc, name)?, Text::of(alloc, value)?)?;
        }
    }
    Ok(shown)
}

/// What a caller needs to see an annotation.
fn permission_of(annotation: &str) -> Permission
    ensures { result ≡ permission_of_annotation annotation.now }
{
    match Field::of_annotation(annotation) {
        Some(field) => field.permission(),
        None => Permission::ProtectedData,
    }
}
