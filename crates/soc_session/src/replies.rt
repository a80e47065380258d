//! What messages are answered.
ghost use Rattle.std.specs.Prelude.{◌≡◌, ◌≢◌, ◌+◌, ◌<◌, ◌≤◌, ◌++◌, [], length, codes, vec_capacity, IfOk, OnErr};
ghost use Rattle.soc_raw.specs.RawCrash.{crash_of};
ghost use Rattle.soc_session.specs.Json.{asked_json, drained_json, turned_json};
ghost use Rattle.soc_session.specs.Replies.{BuildsText, counts_reply, desk_refusal, desk_reply, found_reply, good, head_refusal, journal_full, kept, malformed, no_memory, plain, query_refusal, rejected, row_reply, stack_reply, tops_refusal, tops_reply, wrong_method};

use crate::forms::ReplyForm;
use crate::json::{annotations_json, counts_json};
use crate::stacks::Stacks;
use soc_base::{Bytes, NoMemory};
use soc_desk::{Counts, Refusal, Reply};
use soc_forms::Reason;
use soc_http::{Answered, HeadError, Kind, Verb};
use soc_pages::{report_page, search_page, tops_page};
use soc_query::{Answer, QueryError};
use soc_raw::{CrashId, RawCrash};
use soc_schema::{Permission, Permissions, Row, row_json};
use soc_tops::{Tops, TopsError};
use std::alloc::Global;

/// How many bytes a short reply's body has at most.
const ROOM: usize = 64;

/// Memory for the body of a short reply, taken before it is known which reply that is.
#[derive(Drop)]
pub(crate) struct Room {
    bytes: Vec<u8>,
    ghost empty: { bytes.items ≡ [] },
    ghost roomy: { 64 ≤ vec_capacity bytes },
}

impl Room {
    pub(crate) fn new(alloc: Global) -> Result<Room, NoMemory> {
        Ok(Room {
            bytes: Vec::with_capacity(alloc, ROOM)?,
        })
    }

    /// These texts, one behind the other.
    fn of(self, first: &str, second: &str, third: &str) -> Bytes
        requires { length first.now + length second.now + length third.now ≤ 64 }
        ensures { result ≡ first.now ++ second.now ++ third.now }
    {
        let mut bytes = self.bytes;
        bytes.extend_from_slice(first.as_bytes()).unwrap();
        bytes.extend_from_slice(second.as_bytes()).unwrap();
        bytes.extend_from_slice(third.as_bytes()).unwrap();
        Bytes::from(bytes)
    }

    /// A line of text, in two pieces.
    pub(crate) fn plain(self, status: u16, front: &str, back: &str) -> Answered
        requires { length front.now + length back.now < 64 }
        ensures { result ≡ plain status (front.now ++ back.now) }
    {
        Answered {
            status,
            kind: Kind::Plain,
            allow: None,
            last: false,
            body: self.of(front, back, "\n"),
        }
    }

    /// A line of text.
    pub(crate) fn line(self, status: u16, text: &str) -> Answered
        requires { length text.now < 64 }
        ensures { result ≡ plain status text.now }
    {
        self.plain(status, "", text)
    }

    pub(crate) fn no_memory(self) -> Answered
        ensures { result ≡ no_memory }
    {
        self.line(500, "no_memory")
    }

    /// A head that is refused, or a message that is cut short.
    pub(crate) fn head_refusal(self, error: HeadError) -> Answered
        ensures { result ≡ head_refusal error }
    {
        match error {
            HeadError::BadHead => self.line(400, "bad head"),
            HeadError::HeadTooLarge => self.line(431, "head too large"),
            HeadError::NoLength => self.line(411, "no length"),
            HeadError::BodyTooLarge => self.line(413, "body too large"),
            HeadError::CutShort => self.line(400, "cut short"),
            HeadError::ReadFault | HeadError::NoMemory => self.no_memory(),
        }
    }

    pub(crate) fn wrong_method(self, allow: Verb) -> Answered
        ensures { result ≡ wrong_method allow }
    {
        let mut answered = self.line(405, "wrong method");
        answered.allow = Some(allow);
        answered
    }

    pub(crate) fn malformed(self, reason: Reason) -> Answered
        ensures { result ≡ malformed reason }
    {
        self.plain(400, "Discarded=malformed_", reason.text())
    }

    /// A crash that the rule of this name, of at most 40 bytes, rejects.
    pub(crate) fn rejected(self, rule: &str) -> Answered
        requires { length rule.now ≤ 40 }
        ensures { result ≡ rejected rule.now }
    {
        self.plain(200, "Discarded=rule_", rule)
    }

    fn kept(self, id: CrashId) -> Answered
        ensures { result ≡ kept id }
    {
        self.plain(200, "CrashID=bp-", id.as_str())
    }

    fn asked(self, asked: bool) -> Answered
        ensures { result ≡ good Kind.Json (asked_json asked) }
    {
        let text = if asked {
            "{\"asked\":true}"
        } else {
            "{\"asked\":false}"
        };
        good(Kind::Json, self.of(text, "", ""))
    }

    /// The crash that a turn processed.
    fn turned(self, processed: Option<CrashId>) -> Answered
        ensures { result ≡ good Kind.Json (turned_json processed) }
    {
        let body = match processed {
            Some(id) => self.of("{\"processed\":\"", id.as_str(), "\"}"),
            None => self.of("{\"processed\":null}", "", ""),
        };
        good(Kind::Json, body)
    }

    /// How many crashes a drain processed.
    fn drained(self, count: u64) -> Answered
        ensures { result ≡ good Kind.Json (drained_json count) }
    {
        let mut digits = itoa::Buffer::new();
        let digits = digits.format(count);
        good(Kind::Json, self.of("{\"processed\":", digits, "}"))
    }

    fn journal_full(self, form: ReplyForm) -> Answered
        ensures { result ≡ journal_full form }
    {
        match form {
            ReplyForm::Submission => self.line(507, "Discarded=journal_full"),
            ReplyForm::Data | ReplyForm::Page | ReplyForm::Heartbeat | ReplyForm::Report(_) =>
                self.line(507, "journal_full"),
        }
    }

    fn desk_refusal(self, form: ReplyForm, refusal: Refusal) -> Answered
        ensures { result ≡ desk_refusal form refusal }
    {
        match refusal {
            Refusal::StoreFault => self.line(503, "store_fault"),
            Refusal::JournalFull => self.journal_full(form),
            Refusal::OtherContent { .. } => self.line(409, "Discarded=other_crash_has_this_id"),
            Refusal::NoCrash => self.line(404, "not found"),
            Refusal::NotProcessed => self.line(404, "not processed"),
            Refusal::TooManyCrashes => self.line(507, "Discarded=too_many_crashes"),
            Refusal::NoPermission { name } => self.plain(403, "needs ", name.name()),
            Refusal::Altered { .. } => self.line(500, "store_altered"),
            Refusal::Withdrawn { .. } => self.line(410, "Discarded=withdrawn"),
            Refusal::NoMemory => self.no_memory(),
        }
    }

    /// What a log has, as JSON, or for a heartbeat whether it is in doubt.
    fn counts_reply(
        self,
        alloc: Global,
        form: ReplyForm,
        counts: Counts,
    ) -> Result<Answered, NoMemory>
        ensures { IfOk result (λ answered. answered ≡ counts_reply form counts) }
    {
        match form {
            ReplyForm::Heartbeat => {
                if counts.in_doubt {
                    Ok(self.line(503, "store_fault"))
                } else {
                    Ok(self.line(200, "ok"))
                }
            }
            ReplyForm::Submission | ReplyForm::Data | ReplyForm::Page | ReplyForm::Report(_) => {
                Ok(good(Kind::Json, counts_json(alloc, counts)?))
            }
        }
    }

    /// The stack of a raw crash, where it has one.
    fn stack_reply<S: Stacks>(
        self,
        alloc: Global,
        stacks: &S,
        shown: Permissions,
        raw: &RawCrash,
    ) -> Result<Answered, NoMemory>
        ensures { IfOk result (λ answered. answered
            ≡ stack_reply (S.stack_of stacks.now shown (crash_of raw.now))) }
    {
        match stacks.stack(alloc, shown, raw)? {
            Some(stack) => Ok(good(Kind::Json, stack)),
            None => Ok(self.line(404, "no dump")),
        }
    }

    /// What the desk's reply is answered as, and of a raw crash its stack, with what is shown under these permissions. Memory
    /// is taken only for a text that is built of the reply.
    pub(crate) fn desk_reply<S: Stacks>(
        self,
        alloc: Global,
        form: ReplyForm,
        stacks: &S,
        shown: Permissions,
        reply: Reply,
    ) -> Result<Answered, NoMemory>
        ensures ok { IfOk result (λ answered. answered
            ≡ desk_reply form (S.stack_of stacks.now shown) reply) }
        ensures err { OnErr result (BuildsText reply) }
    {
        match reply {
            Reply::Stored { id, .. } => Ok(self.kept(id)),
            Reply::Repeated { id } => Ok(self.kept(id)),
            Reply::Asked { asked, .. } => Ok(self.asked(asked)),
            Reply::Withdrawn => Ok(good(Kind::Json, self.of("{\"withdrawn\":true}", "", ""))),
            Reply::Raw(annotations) => Ok(good(Kind::Json, annotations_json(alloc, &annotations)?)),
            Reply::Row(row) => row_reply(alloc, form, &row),
            Reply::Dump(bytes) => Ok(good(Kind::Octets, bytes)),
            Reply::Found(answer) => found_reply(alloc, form, &answer),
            Reply::Tops(tops) => tops_reply(alloc, form, &tops),
            Reply::Turned(processed) => Ok(self.turned(processed)),
            Reply::Drained(count) => Ok(self.drained(count)),
            Reply::Stopping => Ok(self.line(200, "stopping")),
            Reply::Refused(refusal) => Ok(self.desk_refusal(form, refusal)),
            Reply::Counted(counts) => self.counts_reply(alloc, form, counts),
            Reply::Record(raw) => self.stack_reply(alloc, stacks, shown, &raw),
            Reply::Kept(_) | Reply::Fetched(_) | Reply::Finished { .. } => Ok(self.no_memory()),
        }
    }
}

/// A body of this kind.
pub(crate) fn good(kind: Kind, body: Bytes) -> Answered
    ensures { result ≡ good kind body }
{
    Answered {
        status: 200,
        kind,
        allow: None,
        last: false,
        body,
    }
}

/// A report, as a page or as JSON.
fn row_reply(alloc: Global, form: ReplyForm, row: &Row) -> Result<Answered, NoMemory>
    ensures { IfOk result (λ answered. answered ≡ row_reply form row.now) }
{
    match form {
        ReplyForm::Report(id) => Ok(good(Kind::Html, report_page(alloc, id, row)?)),
        ReplyForm::Submission | ReplyForm::Data | ReplyForm::Page | ReplyForm::Heartbeat => Ok(good(
            Kind::Json,
            row_json(alloc, row)?,
        )),
    }
}

/// What a search found, as a page or as JSON.
fn found_reply(alloc: Global, form: ReplyForm, answer: &Answer) -> Result<Answered, NoMemory>
    ensures { IfOk result (λ answered. answered ≡ found_reply form answer.now) }
{
    match form {
        ReplyForm::Page => Ok(good(Kind::Html, search_page(alloc, answer)?)),
        ReplyForm::Submission | ReplyForm::Data | ReplyForm::Heartbeat | ReplyForm::Report(_) => {
            Ok(good(Kind::Json, answer.json(alloc)?))
        }
    }
}

/// Top crashers, as a page or as JSON.
fn tops_reply(alloc: Global, form: ReplyForm, tops: &Tops) -> Result<Answered, NoMemory>
    ensures { IfOk result (λ answered. answered ≡ tops_reply form tops.now) }
{
    match form {
        ReplyForm::Page => Ok(good(Kind::Html, tops_page(alloc, tops)?)),
        ReplyForm::Submission | ReplyForm::Data | ReplyForm::Heartbeat | ReplyForm::Report(_) => Ok(
            good(Kind::Json, tops.json(alloc)?),
        ),
    }
}

/// Why a query isn't read.
pub(crate) fn query_refusal(alloc: Global, error: QueryError) -> Result<Answered, NoMemory>
    ensures { IfOk result (λ answered. (answered ≡ query_refusal error)
        × (error ≢ QueryError.NoMemory)) }
{
    match error {
        QueryError::UnknownField { name } => named(alloc, 400, "unknown field ", name.as_str()),
        QueryError::NotGranted { name, permission } => {
            not_granted(alloc, name.as_str(), permission)
        }
        QueryError::BadValue { name } => named(alloc, 400, "bad value ", name.as_str()),
        QueryError::BadNumber { name } => named(alloc, 400, "bad number ", name.as_str()),
        QueryError::TooManyConditions => named(alloc, 400, "too many ", "conditions"),
        QueryError::NoMemory => Err(NoMemory),
    }
}

/// Why a query for top crashers isn't read.
pub(crate) fn tops_refusal(alloc: Global, error: TopsError) -> Result<Answered, NoMemory>
    ensures { IfOk result (λ answered. (answered ≡ tops_refusal error)
        × (error ≢ TopsError.NoMemory)) }
{
    match error {
        TopsError::BadParameter { name } => named(alloc, 400, "bad parameter ", name.as_str()),
        TopsError::NoMemory => Err(NoMemory),
    }
}

/// A line of text that ends in a name, which may be long.
fn named(alloc: Global, status: u16, front: &str, name: &str) -> Result<Answered, NoMemory>
    ensures { IfOk result (λ answered. answered ≡ plain status (front.now ++ name.now)) }
{
    let mut bytes = Vec::new(alloc);
    bytes.extend_from_slice(front.as_bytes())?;
    bytes.extend_from_slice(name.as_bytes())?;
    bytes.extend_from_slice(b"\n")?;
    Ok(Answered {
        status,
        kind: Kind::Plain,
        allow: None,
        last: false,
        body: Bytes::from(bytes),
    })
}

/// A field that the caller may not see.
fn not_granted(alloc: Global, name: &str, permission: Permission) -> Result<Answered, NoMemory>
    ensures { IfOk result (λ answered. answered
        ≡ query_refusal (QueryError.NotGranted name.now permission)) }
{
    let mut text = Vec::new(alloc);
    text.extend_from_slice(b"field ")?;
    text.extend_from_slice(name.as_bytes())?;
    text.extend_from_slice(b" needs ")?;
    text.extend_from_slice(permission.name().as_bytes())?;
    text.extend_from_slice(b"\n")?;
    Ok(Answered {
        status: 403,
        kind: Kind::Plain,
        allow: None,
        last: false,
        body: Bytes::from(text),
    })
}
