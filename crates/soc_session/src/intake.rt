//! How the body behind a head is taken in, and what is had of it.
ghost use Rattle.soc_session.specs.inner.Passing.{IsPassing};

use crate::plans::Plan;
use crate::routes::asks::Action;
use soc_base::NoMemory;
use soc_forms::{Form, Submission};
use soc_schema::Caller;

/// How the body behind a head is taken in.
#[derive(Drop)]
pub(crate) enum Intake {
    /// The head says what the message comes to, and the body is passed over.
    Passes(Plan),
    /// The body is fed to a form, piece by piece.
    Feeds(Form),
    /// The body is collected whole, for the crash that it names.
    Collects { action: Action, caller: Caller },
}

/// What is had of a message once its body was taken in.
#[derive(Drop)]
pub(crate) enum Content {
    /// What the message comes to.
    Decided(Plan),
    /// A submission.
    Submitted(Submission),
}

/// The body is passed over.
pub(crate) fn passing(plan: Result<Plan, NoMemory>) -> Result<Intake, NoMemory>
    ensures { IsPassing plan result }
{
    Ok(Intake::Passes(plan?))
}
