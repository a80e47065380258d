//! What operators ask. Query and body are passed over.
ghost use Rattle.std.specs.Prelude.{◌≡◌};
ghost use Rattle.soc_desk.specs.Commands.{to_count, to_drain, to_stop, to_turn};
ghost use Rattle.soc_session.specs.Plan.{asks};
ghost use Rattle.soc_session.specs.inner.Plans.{plan_text};

use crate::forms::ReplyForm;
use crate::plans::Plan;
use soc_desk::Command;
use soc_schema::Caller;

/// `/control/turn`: the first crash that is due is processed.
pub(super) fn turn(caller: Caller) -> Plan
    ensures { plan_text result ≡ asks (to_turn caller) ReplyForm.Data }
{
    Plan::asking(Command::Turn { caller }, ReplyForm::Data)
}

/// `/control/drain`: each crash that is due is processed.
pub(super) fn drain(caller: Caller) -> Plan
    ensures { plan_text result ≡ asks (to_drain caller) ReplyForm.Data }
{
    Plan::asking(Command::Drain { caller }, ReplyForm::Data)
}

/// `/control/stop`: the service stops.
pub(super) fn stop(caller: Caller) -> Plan
    ensures { plan_text result ≡ asks (to_stop caller) ReplyForm.Data }
{
    Plan::asking(Command::Stop { caller }, ReplyForm::Data)
}

/// `/control/counts`: what the log has, counted.
pub(super) fn counts(caller: Caller) -> Plan
    ensures { plan_text result ≡ asks (to_count caller) ReplyForm.Data }
{
    Plan::asking(Command::Counts { caller }, ReplyForm::Data)
}
