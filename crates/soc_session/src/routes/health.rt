//! What load balancers and monitors ask, as Dockerflow has it.
ghost use Rattle.std.specs.Prelude.{◌≡◌, IfOk};
ghost use Rattle.soc_desk.specs.Commands.{to_count};
ghost use Rattle.soc_session.specs.Plan.{asks, monitor, says};
ghost use Rattle.soc_session.specs.Replies.{alive, version_reply};
ghost use Rattle.soc_session.specs.inner.Plans.{plan_text};

use crate::forms::ReplyForm;
use crate::plans::Plan;
use crate::replies::good;
use crate::rules::Rules;
use soc_base::{Bytes, NoMemory};
use soc_desk::Command;
use soc_http::Kind;
use soc_schema::{Caller, Permission, Permissions, Products};
use std::alloc::Global;

/// What is told of a program that tells nothing of itself.
const NAME_ALONE: &str = "{\"name\":\"socorro\"}";

/// `/__heartbeat__`: whether the log is in doubt. Nothing is mended.
pub(super) fn heartbeat() -> Plan
    ensures { plan_text result ≡ asks (to_count monitor) ReplyForm.Heartbeat }
{
    let caller = monitor();
    Plan::asking(Command::Counts { caller }, ReplyForm::Heartbeat)
}

/// `/__lbheartbeat__`: no desk is asked.
pub(super) fn alive(alloc: Global) -> Result<Plan, NoMemory>
    ensures { IfOk result (λ plan. plan_text plan ≡ says alive) }
{
    Plan::line(alloc, 200, "ok")
}

/// `/__version__`: which program answers.
pub(super) fn version(alloc: Global, rules: &Rules) -> Result<Plan, NoMemory>
    ensures { IfOk result (λ plan. plan_text plan ≡ says (version_reply rules.now.version)) }
{
    let told = match &rules.version {
        Some(version) => Bytes::of(alloc, version.as_slice())?,
        None => Bytes::of(alloc, NAME_ALONE.as_bytes())?,
    };
    Ok(Plan::Says(good(Kind::Json, told)))
}

/// Who counts for a heartbeat.
fn monitor() -> Caller
    ensures { result ≡ monitor }
{
    let mut permissions = Permissions::public();
    permissions.add(Permission::Operate);
    Caller {
        permissions,
        products: Products::All,
    }
}
