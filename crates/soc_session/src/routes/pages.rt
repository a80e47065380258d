//! Pages that have no API call of the same query.
ghost use Rattle.std.specs.Prelude.{◌≡◌, IfOk};
ghost use Rattle.soc_session.specs.Parameters.{id_in};
ghost use Rattle.soc_session.specs.Plan.{page_of};
ghost use Rattle.soc_session.specs.inner.Plans.{plan_text};

use crate::forms::ReplyForm;
use crate::parameters::id_in;
use crate::plans::Plan;
use soc_base::NoMemory;
use soc_desk::Command;
use soc_schema::Caller;
use std::alloc::Global;

/// `/report/index/` and an id: the page of a crash's report.
pub(super) fn report(alloc: Global, id: &str, caller: Caller) -> Result<Plan, NoMemory>
    ensures { IfOk result (λ plan. plan_text plan ≡ page_of caller (id_in id.now)) }
{
    let Some(id) = id_in(id) else {
        return Plan::not_found(alloc);
    };
    Ok(Plan::asking(Command::Processed { caller, id }, ReplyForm::Report(id)))
}
