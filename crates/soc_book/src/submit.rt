//! Submissions.
ghost use Rattle.std.specs.Prelude.{◌≡◌, ◌<◌, false, length, IfOk, None};
ghost use Rattle.soc_raw.specs.RawCrash.{crash_of};
ghost use Rattle.soc_ledger.specs.Due.{is_due_at_once};
ghost use Rattle.soc_ledger.specs.Events.{was_accepted};
ghost use Rattle.soc_ledger.specs.State.{id_of};
ghost use Rattle.soc_desk.specs.Kinds.{IsReplyTo};
ghost use Rattle.soc_book.specs.Books.{SameSetting, Serves};
ghost use Rattle.soc_book.specs.inner.Books.{IsSubmissionOf, reply_of};
ghost use Rattle.soc_book.specs.inner.Steps.{DecidesBook};

use crate::book::{Book, Change};
use crate::commands::reply_of;
use crate::submission::Submission;
use soc_base::NoMemory;
use soc_desk::{Command, Refusal, Reply};
use soc_edge::Disk;
use soc_raw::{CrashId, Digit, RawCrash};
use soc_schema::Reporter;

impl<'a, D: Disk, R: Reporter> Book<'a, D, R> {
    /// Keeps a crash that was prepared, or says that it is kept already.
    pub(crate) fn submit(&mut self, submission: Result<Submission, NoMemory>) -> Reply
        ensures setting { SameSetting self.old self.new }
        ensures kind { (raw : RawCrash)
            → IfOk submission (λ made. IsSubmissionOf made (crash_of raw))
            → IsReplyTo (Command.Submit raw) result }
        ensures does { (raw : RawCrash)
            → IfOk submission (λ made. IsSubmissionOf made (crash_of raw))
            → Serves self.old (Command.Submit raw) result self.new }
    {
        match self.begin(submission) {
            Ok(submission) => self.submit_settled(submission),
            Err(refusal) => Reply::Refused(refusal),
        }
    }

    /// The same once a doubt is settled.
    fn submit_settled(&mut self, submission: Submission) -> Reply
        requires settled { self.old.vault.journal.doubt ≡ None }
        requires room { 0 < self.old.ledger.room }
        ensures setting { SameSetting self.old self.new }
        ensures kind { (raw : RawCrash) → IsSubmissionOf submission (crash_of raw)
            → IsReplyTo (Command.Submit raw) result }
        ensures decided { (raw : RawCrash) → IsSubmissionOf submission (crash_of raw)
            → DecidesBook self.old (Command.Submit raw) result self.new }
    {
        let Some(number) = self.ledger.number_of(submission.id()) else {
            return self.keep_new(submission);
        };
        reply_of(self.compare(number, &submission))
    }

    /// Keeps a crash of a new id.
    fn keep_new(&mut self, submission: Submission) -> Reply
        requires settled { self.old.vault.journal.doubt ≡ None }
        requires room { 0 < self.old.ledger.room }
        requires is_new { was_accepted self.old.ledger.log submission.new.id ≡ false }
        ensures setting { SameSetting self.old self.new }
        ensures kind { (raw : RawCrash) → IsSubmissionOf submission (crash_of raw)
            → IsReplyTo (Command.Submit raw) result }
        ensures decided { (raw : RawCrash) → IsSubmissionOf submission (crash_of raw)
            → DecidesBook self.old (Command.Submit raw) result self.new }
    {
        if self.ledger.accepted() >= self.limits.crashes {
            return Reply::Refused(Refusal::TooManyCrashes);
        }
        let Submission { new, entry, .. } = submission;
        let id = new.id;
        let written = Reply::Stored {
            id,
            due: is_due_at_once(id),
        };
        self.write(&entry, Change::Accept(new), written)
    }

    /// Whether the accepted crash of a number is the one that is submitted. The disk is read only where their digests are
    /// equal.
    fn compare(&mut self, number: u32, submission: &Submission) -> Result<Reply, Refusal>
        requires settled { self.old.vault.journal.doubt ≡ None }
        requires within { number < length self.old.ledger.crashes }
        requires number { id_of self.old.ledger number ≡ submission.now.new.id }
        ensures setting { SameSetting self.old self.new }
        ensures kind { (raw : RawCrash) → IsSubmissionOf submission.now (crash_of raw)
            → IsReplyTo (Command.Submit raw) (reply_of result) }
        ensures decided { (raw : RawCrash) → IsSubmissionOf submission.now (crash_of raw)
            → DecidesBook self.old (Command.Submit raw) (reply_of result) self.new }
    {
        let id = submission.new.id;
        let crash = self.ledger.crash(number);
        if crash.standing.withdrawn {
            return Err(Refusal::Withdrawn { id });
        }
        if crash.filed.digest != submission.new.digest {
            return Err(Refusal::OtherContent { id });
        }
        let place = crash.filed.content;
        match self.vault.holds(place, submission.content()) {
            Ok(true) => Ok(Reply::Repeated { id }),
            Ok(false) => Err(Refusal::OtherContent { id }),
            Err(_) => Err(Refusal::StoreFault),
        }
    }
}

/// Whether a new crash is due as soon as it is accepted.
pub(crate) fn is_due_at_once(id: CrashId) -> bool
    ensures { result ≡ is_due_at_once id }
{
    id.digit() == Digit::Accepted
}
