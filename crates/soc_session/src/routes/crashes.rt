//! What is asked of the crash that a query names.
ghost use Rattle.std.specs.Prelude.{◌≡◌, IfOk, codes};
ghost use Rattle.soc_http.specs.Query.{query_pairs};
ghost use Rattle.soc_desk.specs.Commands.{to_show_raw, to_show_report, to_show_dump, to_show_stack};
ghost use Rattle.soc_session.specs.Parameters.{crash_named, dump_named};
ghost use Rattle.soc_session.specs.Plan.{about};
ghost use Rattle.soc_session.specs.inner.Plans.{plan_text};

use crate::forms::ReplyForm;
use crate::parameters::{crash_named, dump_named, query_in};
use crate::plans::Plan;
use soc_base::{NoMemory, Text};
use soc_desk::Command;
use soc_http::Head;
use soc_schema::Caller;
use std::alloc::Global;

/// `/api/RawCrash/`: the annotations of a crash.
pub(super) fn annotations(alloc: Global, head: &Head, caller: Caller) -> Result<Plan, NoMemory>
    ensures { IfOk result (λ plan. plan_text plan ≡
        about (crash_named (codes "crash_id") (query_pairs head.now.query)) (to_show_raw caller) ReplyForm.Data) }
{
    let pairs = query_in(alloc, head)?;
    let Some(id) = crash_named("crash_id", &pairs) else {
        return Plan::not_found(alloc);
    };
    Ok(Plan::asking(Command::Raw { caller, id }, ReplyForm::Data))
}

/// `/api/RawDump/`: a dump of a crash.
pub(super) fn dump(alloc: Global, head: &Head, caller: Caller) -> Result<Plan, NoMemory>
    ensures { IfOk result (λ plan. plan_text plan ≡
        about (crash_named (codes "crash_id") (query_pairs head.now.query))
        (λ id. to_show_dump caller id (dump_named (query_pairs head.now.query))) ReplyForm.Data) }
{
    let pairs = query_in(alloc, head)?;
    let Some(id) = crash_named("crash_id", &pairs) else {
        return Plan::not_found(alloc);
    };
    let name = Text::of(alloc, dump_named(&pairs))?;
    Ok(Plan::asking(Command::Dump { caller, id, name }, ReplyForm::Data))
}

/// `/api/Stack/`: the stack of a crash.
pub(super) fn stack(alloc: Global, head: &Head, caller: Caller) -> Result<Plan, NoMemory>
    ensures { IfOk result (λ plan. plan_text plan ≡
        about (crash_named (codes "crash_id") (query_pairs head.now.query)) (to_show_stack caller) ReplyForm.Data) }
{
    let pairs = query_in(alloc, head)?;
    let Some(id) = crash_named("crash_id", &pairs) else {
        return Plan::not_found(alloc);
    };
    Ok(Plan::asking(Command::Stack { caller, id }, ReplyForm::Data))
}

/// `/api/ProcessedCrash/`: the report of a crash.
pub(super) fn report(alloc: Global, head: &Head, caller: Caller) -> Result<Plan, NoMemory>
    ensures { IfOk result (λ plan. plan_text plan ≡
        about (crash_named (codes "crash_id") (query_pairs head.now.query)) (to_show_report caller) ReplyForm.Data) }
{
    let pairs = query_in(alloc, head)?;
    let Some(id) = crash_named("crash_id", &pairs) else {
        return Plan::not_found(alloc);
    };
    Ok(Plan::asking(Command::Processed { caller, id }, ReplyForm::Data))
}
