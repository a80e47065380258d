//! The service's own page.
ghost use Rattle.std.specs.Prelude.{◌≡◌, IfOk};
ghost use Rattle.soc_session.specs.Plan.{says};
ghost use Rattle.soc_session.specs.Replies.{front_reply};
ghost use Rattle.soc_session.specs.inner.Plans.{plan_text};

use crate::plans::Plan;
use crate::replies::good;
use crate::rules::Rules;
use soc_base::{Bytes, NoMemory};
use soc_http::Kind;
use std::alloc::Global;

/// `/`: the page as it stands. No desk is asked.
pub(super) fn page(alloc: Global, rules: &Rules) -> Result<Plan, NoMemory>
    ensures { IfOk result (λ plan. plan_text plan ≡ says (front_reply rules.now.page)) }
{
    let Some(page) = &rules.page else {
        return Plan::line(alloc, 404, "no route");
    };
    Ok(Plan::Says(good(Kind::OwnPage, Bytes::of(alloc, page.as_slice())?)))
}
