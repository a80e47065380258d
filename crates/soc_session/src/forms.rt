//! How a desk's reply is written.
use soc_raw::CrashId;

/// How a desk's reply is written. A refusal is a line of text in each of them.
#[derive(Clone, Copy, Debug)]
pub(crate) enum ReplyForm {
    /// As a line of text, which says of a submission that isn't kept that it is discarded.
    Submission,
    /// As JSON, or as the bytes of a dump.
    Data,
    /// As a page of a search or of top crashers.
    Page,
    /// As a line of text that says whether a log is in doubt.
    Heartbeat,
    /// As the page of this crash's report.
    Report(CrashId),
}
