//! What a message comes to: a reply that needs no desk, or a question for the desk.
use crate::forms::ReplyForm;
use crate::question::Question;
use crate::replies::Room;
use soc_base::NoMemory;
use soc_desk::Command;
use soc_http::Answered;
use std::alloc::Global;

/// What a message comes to.
#[derive(Drop)]
pub(crate) enum Plan {
    /// A reply without the desk.
    Says(Answered),
    /// A question for the desk.
    Asks(Question),
}

impl Plan {
    ghost use Rattle.std.specs.Prelude.{◌≡◌, ◌<◌, length, IfOk, true};
    ghost use Rattle.soc_desk.specs.Commands.{command_text};
    ghost use Rattle.soc_session.specs.Plan.{asks, says};
    ghost use Rattle.soc_session.specs.Replies.{not_found, plain};
    ghost use Rattle.soc_session.specs.inner.Askable.{is_askable};
    ghost use Rattle.soc_session.specs.inner.Plans.{plan_text};

    /// Asks the desk.
    pub(crate) fn asking(command: Command, form: ReplyForm) -> Plan
        requires { is_askable command ≡ true }
        ensures { plan_text result ≡ asks (command_text command) form }
    {
        Plan::Asks(Question { command, form })
    }

    /// Answers a line of text.
    pub(crate) fn line(alloc: Global, status: u16, text: &str) -> Result<Plan, NoMemory>
        requires { length text.now < 64 }
        ensures { IfOk result (λ plan. plan_text plan ≡ says (plain status text.now)) }
    {
        Ok(Plan::Says(Room::new(alloc)?.line(status, text)))
    }

    /// Answers that nothing is there.
    pub(crate) fn not_found(alloc: Global) -> Result<Plan, NoMemory>
        ensures { IfOk result (λ plan. plan_text plan ≡ says not_found) }
    {
        Plan::line(alloc, 404, "not found")
    }
}
