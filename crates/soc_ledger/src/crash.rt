//! What a ledger keeps of a crash.
ghost use Rattle.std.specs.Prelude.{◌≡◌, if◌then◌else◌, None, Some};
ghost use Rattle.soc_ledger.specs.Due.{is_due_at_once};

use crate::event::Event;
use soc_base::SharedText;
use soc_raw::{CrashId, Digit};

/// What is kept of an accepted crash beside its events.
#[derive(Debug, Drop)]
pub struct Filed {
    pub id: CrashId,
    /// Where its entry begins in the journal.
    pub place: u64,
    /// Where its content begins in the journal.
    pub content: u64,
    pub product: Option<SharedText>,
    /// The SHA-256 of its content.
    pub digest: [u8; 32],
}

/// What the log says of a crash.
#[derive(Clone, Copy, Debug, Default, PartialEq, Eq)]
pub struct Standing {
    pub withdrawn: bool,
    /// The place, in the log, of the first event since the crash was last processed that makes it due, where it is due.
    pub due_since: Option<u64>,
    pub has_report: bool,
    /// Behind its last acceptance or asking stands a report that the run's own lists and symbols made.
    pub is_kept: bool,
}

/// An accepted crash.
#[derive(Debug, Drop)]
pub struct Crash {
    pub filed: Filed,
    pub standing: Standing,
}

impl Standing {
    ghost use Rattle.soc_ledger.specs.inner.Tables.{shows_report, standing_after};

    /// How a crash stands after an event of it at this place of the log.
    pub(crate) fn after(self, event: &Event, place: u64) -> Standing
        ensures { result ≡ standing_after event.now place self }
    {
        match event {
            Event::Accepted(id) => Standing {
                due_since: due_at_once(*id, place),
                is_kept: false,
                ..self
            },
            Event::Asked(_) => Standing {
                due_since: Some(self.due_since.unwrap_or(place)),
                is_kept: false,
                ..self
            },
            Event::Withdrawn(_) => Standing {
                withdrawn: true,
                due_since: None,
                ..self
            },
            Event::Reported { own: true, .. } => Standing {
                due_since: None,
                has_report: self.due_since.is_some() || self.has_report,
                is_kept: true,
                ..self
            },
            Event::Done(_) => Standing {
                due_since: None,
                has_report: true,
                ..self
            },
            Event::Reported { own: false, .. } | Event::Stopped => self,
        }
    }

    /// Whether a report of the crash is shown.
    pub(crate) fn shows_report(&self) -> bool
        ensures { result ≡ shows_report self.now }
    {
        !self.withdrawn && self.has_report
    }
}

/// Since when a new crash is due: at once where its digit is 0.
fn due_at_once(id: CrashId, place: u64) -> Option<u64>
    ensures { result ≡ (if is_due_at_once id then Some place else None) }
{
    match id.digit() {
        Digit::Accepted => Some(place),
        Digit::Deferred => None,
    }
}
