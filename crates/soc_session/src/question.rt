//! Questions for a desk.
ghost use Rattle.std.specs.Prelude.{◌≡◌, true};
ghost use Rattle.soc_session.specs.inner.Askable.{is_askable};

use crate::forms::ReplyForm;
use soc_desk::Command;

/// A command that may be asked at any time, and how the desk's reply to it is written.
#[derive(Drop)]
pub(crate) struct Question {
    pub(crate) command: Command,
    pub(crate) form: ReplyForm,
    pub(crate) ghost askable: { is_askable command ≡ true },
}
