//! What is asked for the crash that a form names.
ghost use Rattle.std.specs.Prelude.{◌≡◌, IfOk, codes, true};
ghost use Rattle.soc_http.specs.Query.{query_pairs};
ghost use Rattle.soc_desk.specs.Commands.{command_text};
ghost use Rattle.soc_session.specs.Parameters.{crash_named};
ghost use Rattle.soc_session.specs.Plan.{about};
ghost use Rattle.soc_session.specs.inner.Actions.{to_act};
ghost use Rattle.soc_session.specs.inner.Askable.{is_askable};
ghost use Rattle.soc_session.specs.inner.Plans.{plan_text};

use crate::forms::ReplyForm;
use crate::parameters::crash_posted;
use crate::plans::Plan;
use soc_base::NoMemory;
use soc_desk::Command;
use soc_raw::CrashId;
use soc_schema::Caller;
use std::alloc::Global;

/// What is asked for the crash that a form names.
#[derive(Clone, Copy, Debug)]
pub(crate) enum Action {
    /// `/api/PriorityJob/`: it is processed, unless it has a report.
    Prioritise,
    /// `/api/Reprocessing/`: it is processed, again where it has a report.
    Reprocess,
    /// `/api/Withdrawal/`: it is shown nowhere any longer.
    Withdraw,
}

/// Asks it for the crash that the first `crash_ids` pair of a form names.
pub(crate) fn plan(
    alloc: Global,
    action: Action,
    caller: Caller,
    form: &[u8],
) -> Result<Plan, NoMemory>
    ensures { IfOk result (λ plan. plan_text plan ≡
        about (crash_named (codes "crash_ids") (query_pairs form.now)) (to_act action caller) ReplyForm.Data) }
{
    let Some(id) = crash_posted(alloc, form)? else {
        return Plan::not_found(alloc);
    };
    Ok(Plan::asking(command(action, caller, id), ReplyForm::Data))
}

fn command(action: Action, caller: Caller, id: CrashId) -> Command
    ensures text { command_text result ≡ to_act action caller id }
    ensures askable { is_askable result ≡ true }
{
    match action {
        Action::Prioritise => Command::Priority { caller, id },
        Action::Reprocess => Command::Reprocess { caller, id },
        Action::Withdraw => Command::Withdraw { caller, id },
    }
}
