//! Submissions.
ghost use Rattle.std.specs.Prelude.{◌≡◌, ◌≤◌, length, IfOk, IfErr};
ghost use Rattle.soc_edge.specs.Ahead.{outlook};
ghost use Rattle.soc_http.specs.Message.{Message};
ghost use Rattle.soc_raw.specs.Day.{IsMoment};
ghost use Rattle.soc_forms.specs.Fits.{FitsCrash};
ghost use Rattle.soc_forms.specs.FormErrors.{LinesRefusal};
ghost use Rattle.soc_forms.specs.SubmissionViews.{submission_text};
ghost use Rattle.soc_session.specs.Plan.{HoldsSubmission, PlansSubmission, crash_with, encoding_in, keeps, kinds_in, plan_by, plan_of, says};
ghost use Rattle.soc_session.specs.Replies.{malformed};
ghost use Rattle.soc_session.specs.inner.Intakes.{AwaitsSubmission, IsNewForm};
ghost use Rattle.soc_session.specs.inner.Plans.{Draws, drawn_of, plan_text};

use crate::drawing::{Drawing, draw};
use crate::forms::ReplyForm;
use crate::intake::{Intake, passing};
use crate::plans::Plan;
use crate::replies::Room;
use crate::rules::Rules;
use soc_base::{NoMemory, Text};
use soc_desk::Command;
use soc_edge::{Clock, Draws};
use soc_forms::{FormError, Reason, Submission};
use soc_http::{Head, encoding_of, lines_named};
use soc_raw::{CrashId, Digit, RawCrash};
use soc_throttle::{Outcome, RuleSet, Verdict};
use std::alloc::Global;

/// `/submit`: the body is fed to a form, unless the head's lines are none of a form.
pub(super) fn intake(alloc: Global, head: &Head) -> Result<Intake, NoMemory>
    ensures { AwaitsSubmission head.now result }
{
    match form_of(alloc, head) {
        Ok(form) => Ok(Intake::Feeds(form)),
        Err(FormError::Malformed(reason)) => passing(refuse(alloc, reason)),
        Err(FormError::NoMemory) => Err(NoMemory),
    }
}

/// The form that a head's lines say the body is.
fn form_of(alloc: Global, head: &Head) -> Result<soc_forms::Form, FormError>
    ensures found { IfOk result (IsNewForm head.now) }
    ensures refused { IfErr result (LinesRefusal (encoding_in head.now) (kinds_in head.now)) }
{
    let kinds = lines_named(alloc, &head.lines, "content-type")?;
    soc_forms::Form::new(alloc, encoding_of(&head.lines), &kinds)
}

/// Answers that a submission is malformed.
pub(crate) fn refuse(alloc: Global, reason: Reason) -> Result<Plan, NoMemory>
    ensures { IfOk result (λ plan. plan_text plan ≡ says (malformed reason)) }
{
    Ok(Plan::Says(Room::new(alloc)?.malformed(reason)))
}

/// What a submission comes to: a crash is kept, by the rules.
pub(super) fn plan<C: Clock, W: Draws>(
    alloc: Global,
    rules: &Rules,
    said: Submission,
    clock: &mut C,
    draws: &mut W,
) -> Result<Plan, NoMemory>
    requires fits { FitsCrash (submission_text said) }
    ensures { (message : Message) → HoldsSubmission message (submission_text said)
        → Draws (PlansSubmission rules.now message)
        (outlook (C.told clock.old) (W.told draws.old))
        (outlook (C.told clock.new) (W.told draws.new)) result }
{
    let drawing = draw(clock, draws);
    decide(alloc, &rules.rules, said, drawing)
}

/// What becomes of a submission: a sent id is used, else the rules decide.
fn decide(
    alloc: Global,
    rules: &RuleSet,
    said: Submission,
    drawing: Drawing,
) -> Result<Plan, NoMemory>
    requires fits { FitsCrash (submission_text said) }
    requires range { IsMoment drawing.moment }
    ensures { IfOk result (λ plan. plan_text plan
        ≡ plan_of rules.now (drawn_of drawing) (submission_text said) said.sent_id) }
{
    if let Some(id) = said.sent_id {
        return keep(alloc, id, "from_crash_id", drawing, said);
    }
    let verdict = rules.verdict(&said.annotations, drawing.throttle);
    follow(alloc, verdict, drawing, said)
}

/// Follows a rule's verdict on a submission without an id.
fn follow(
    alloc: Global,
    verdict: Verdict<'_>,
    drawing: Drawing,
    said: Submission,
) -> Result<Plan, NoMemory>
    requires short { length verdict.rule.now ≤ 40 }
    requires fits { FitsCrash (submission_text said) }
    requires range { IsMoment drawing.moment }
    ensures { IfOk result (λ plan. plan_text plan ≡
        plan_by (verdict.entry.rule.now, verdict.entry.outcome) (drawn_of drawing) (submission_text said)) }
{
    let digit = match verdict.outcome {
        Outcome::Accept => Digit::Accepted,
        Outcome::Defer => Digit::Deferred,
        Outcome::Reject => return Ok(Plan::Says(Room::new(alloc)?.rejected(verdict.rule))),
    };
    let id = CrashId::make(drawing.id, digit, drawing.moment);
    keep(alloc, id, verdict.rule, drawing, said)
}

/// Asks the desk to keep a submission under this id and the name of the rule that took it.
fn keep(
    alloc: Global,
    id: CrashId,
    rule: &str,
    drawing: Drawing,
    said: Submission,
) -> Result<Plan, NoMemory>
    requires short { length rule.now ≤ 40 }
    requires fits { FitsCrash (submission_text said) }
    requires range { IsMoment drawing.moment }
    ensures { IfOk result (λ plan. plan_text plan
        ≡ keeps (crash_with id rule.now (drawn_of drawing) (submission_text said))) }
{
    let raw = RawCrash {
        id,
        moment: drawing.moment,
        draw: drawing.throttle,
        rule: Text::of(alloc, rule)?,
        annotations: said.annotations,
        dumps: said.dumps,
    };
    Ok(Plan::asking(Command::Submit { raw }, ReplyForm::Submission))
}
