//! What one message is answered over a desk.
ghost use Rattle.std.specs.Prelude.{◌≡◌, IfSome, None, false};
ghost use Rattle.soc_edge.specs.Ahead.{outlook};
ghost use Rattle.soc_http.specs.Message.{Message};
ghost use Rattle.soc_session.specs.Desk.{shown_to, ways};
ghost use Rattle.soc_session.specs.inner.Intakes.{FitsContent, Says};
ghost use Rattle.soc_session.specs.inner.Plans.{Answers, Carries, plan_text};

use crate::intake::Content;
use crate::plans::Plan;
use crate::question::Question;
use crate::replies::Room;
use crate::routes::finish_plan;
use crate::setting::Setting;
use crate::stacks::Stacks;
use soc_base::NoMemory;
use soc_desk::{Command, Desk};
use soc_edge::{Clock, Draws};
use soc_http::Answered;
use soc_schema::Permissions;

/// What came of a message.
#[derive(Drop)]
pub(crate) struct Handled {
    /// `None` where memory wanted.
    pub(crate) reply: Option<Answered>,
    /// Whether the desk has stopped.
    pub(crate) stopped: bool,
}

/// Answers a message that came whole.
pub(crate) fn answer<K: Desk, S: Stacks, C: Clock, W: Draws>(
    setting: &Setting<'_, S>,
    desk: &mut K,
    content: Option<Content>,
    clock: &mut C,
    draws: &mut W,
) -> Handled
    requires { IfSome content FitsContent }
    ensures { (message : Message) → IfSome content (Says setting.now.rules.now message)
        → Answers K.Asks
        (ways setting.now.rules.now (S.stack_of setting.now.stacks.now))
        message desk.old desk.new
        (outlook (C.told clock.old) (W.told draws.old))
        (outlook (C.told clock.new) (W.told draws.new)) result }
{
    let Some(content) = content else {
        return Handled::wanting();
    };
    match finish_plan(setting.alloc, setting.rules, content, clock, draws) {
        Ok(plan) => carry_out(setting, desk, plan),
        Err(NoMemory) => Handled::wanting(),
    }
}

impl Handled {
    /// Memory wanted, before the desk was asked.
    fn wanting() -> Handled
        ensures { result ≡ record { reply = None; stopped = false } }
    {
        Handled {
            reply: None,
            stopped: false,
        }
    }
}

fn carry_out<K: Desk, S: Stacks>(setting: &Setting<'_, S>, desk: &mut K, plan: Plan) -> Handled
    ensures { Carries K.Asks
        (ways setting.now.rules.now (S.stack_of setting.now.stacks.now))
        (plan_text plan) desk.old desk.new result }
{
    match plan {
        Plan::Says(reply) => Handled {
            reply: Some(reply),
            stopped: false,
        },
        Plan::Asks(question) => ask(setting, desk, question),
    }
}

/// Asks the desk, once there is room for its reply.
fn ask<K: Desk, S: Stacks>(setting: &Setting<'_, S>, desk: &mut K, question: Question) -> Handled
    ensures { Carries K.Asks
        (ways setting.now.rules.now (S.stack_of setting.now.stacks.now))
        (plan_text (Plan.Asks question)) desk.old desk.new result }
{
    let Ok(room) = Room::new(setting.alloc) else {
        return Handled::wanting();
    };
    let form = question.form;
    let shown = shown_to(&question.command);
    let receipt = desk.ask(question.command);
    Handled {
        stopped: receipt.stopped,
        reply: room
            .desk_reply(setting.alloc, form, setting.stacks, shown, receipt.reply)
            .ok(),
    }
}

/// Under which permissions a command's stack is shown.
fn shown_to(command: &Command) -> Permissions
    ensures { result ≡ shown_to command.now }
{
    match command {
        Command::Stack { caller, .. } => caller.permissions,
        _ => Permissions::public(),
    }
}
