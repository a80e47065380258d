//! Searches, the fields that may be searched, and top crashers.
ghost use Rattle.std.specs.Prelude.{◌≡◌, ◌≢◌, IfOk};
ghost use Rattle.soc_http.specs.Query.{query_pairs};
ghost use Rattle.soc_query.specs.Queries.{query_of};
ghost use Rattle.soc_tops.specs.Asked.{query_of as tops_query_of};
ghost use Rattle.soc_session.specs.Json.{fields_json};
ghost use Rattle.soc_session.specs.Plan.{says, search_by, tops_by};
ghost use Rattle.soc_session.specs.Replies.{good};
ghost use Rattle.soc_session.specs.inner.Plans.{plan_text};

use crate::forms::ReplyForm;
use crate::json::fields_json;
use crate::parameters::query_in;
use crate::plans::Plan;
use crate::replies::{good, query_refusal, tops_refusal};
use soc_base::NoMemory;
use soc_desk::Command;
use soc_http::{Head, Kind};
use soc_query::Query;
use soc_schema::Caller;
use soc_tops::TopsQuery;
use std::alloc::Global;

/// `/api/SuperSearch/` and `/search/`: the reports that a query asks for.
pub(super) fn reports(
    alloc: Global,
    head: &Head,
    caller: Caller,
    form: ReplyForm,
) -> Result<Plan, NoMemory>
    ensures { IfOk result (λ plan. plan_text plan
        ≡ search_by (query_of caller (query_pairs head.now.query)) form) }
{
    let pairs = query_in(alloc, head)?;
    match Query::read(alloc, &pairs, caller) {
        Ok(query) => Ok(Plan::asking(Command::Search { query }, form)),
        Err(error) => Ok(Plan::Says(query_refusal(alloc, error)?)),
    }
}

/// `/api/SuperSearchFields/`: the fields that the caller may see. No desk is asked.
pub(super) fn fields(alloc: Global, caller: &Caller) -> Result<Plan, NoMemory>
    ensures { IfOk result (λ plan. plan_text plan
        ≡ says (good Kind.Json (fields_json caller.now))) }
{
    Ok(Plan::Says(good(Kind::Json, fields_json(alloc, caller)?)))
}

/// `/api/TopCrashers/` and `/topcrashers/`: the signatures of a product's version.
pub(super) fn tops(
    alloc: Global,
    head: &Head,
    caller: Caller,
    form: ReplyForm,
) -> Result<Plan, NoMemory>
    ensures { IfOk result (λ plan. plan_text plan
        ≡ tops_by (tops_query_of caller (query_pairs head.now.query)) form) }
{
    let pairs = query_in(alloc, head)?;
    match TopsQuery::read(alloc, &pairs, caller) {
        Ok(query) => Ok(Plan::asking(Command::Tops { query }, form)),
        Err(error) => Ok(Plan::Says(tops_refusal(alloc, error)?)),
    }
}
