//! How a run ends, and the status that this gives.
ghost use Rattle.std.specs.Prelude.{◌≡◌};
ghost use Rattle.soc_replay.specs.Ends.{session_status, status_of};
ghost use Rattle.soc_replay.specs.Serving.{keeps_reports};

use soc_session::SessionEnd;

/// What became of the reports that a run keeps for later ones.
#[derive(Clone, Copy)]
pub enum Keeping {
    /// The session's end is one after which nothing is kept.
    Nothing,
    /// So many were kept.
    Done(u64),
    /// The disk failed.
    Fault,
    /// An allocation was refused.
    NoMemory,
}

/// How a run ends.
#[derive(Clone, Copy)]
pub enum RunEnd {
    /// With the session, and the reports after it.
    Served(SessionEnd, Keeping),
    /// What the command writes was written.
    Written,
    /// How the program is used was written, to other words.
    Usage,
    /// A file was refused, and the line that tells it was written.
    TextRefused,
    /// The journal was refused, and the line that tells it was written.
    JournalRefused,
    /// The output failed in what the command writes, or in the line that tells a refusal.
    LineFault,
    /// The tree failed.
    TreeFault,
    /// The maker of patterns failed.
    MakerFault,
    /// The disk failed while the journal was opened, or a crash was read to make its report.
    OpenFault,
    /// The input failed while a key was read.
    InputFault,
    /// An allocation was refused.
    NoMemory,
}

impl RunEnd {
    /// The status that the process ends with.
    pub fn status(self) -> u8
        ensures { result ≡ status_of self }
    {
        match self {
            RunEnd::Served(_, Keeping::Fault) => 4,
            RunEnd::Served(_, Keeping::NoMemory) => 10,
            RunEnd::Served(end, _) => session_status(end),
            RunEnd::Written => 0,
            RunEnd::Usage => 2,
            RunEnd::TextRefused => 3,
            RunEnd::JournalRefused => 5,
            RunEnd::LineFault => 7,
            RunEnd::TreeFault => 8,
            RunEnd::MakerFault => 11,
            RunEnd::OpenFault => 4,
            RunEnd::InputFault => 6,
            RunEnd::NoMemory => 10,
        }
    }
}

fn session_status(end: SessionEnd) -> u8
    ensures { result ≡ session_status end }
{
    match end {
        SessionEnd::Ended | SessionEnd::Closed | SessionEnd::Stopped => 0,
        SessionEnd::Refused => 1,
        SessionEnd::ReadFault => 6,
        SessionEnd::WriteFault => 7,
        SessionEnd::TooLong => 9,
        SessionEnd::NoMemory => 10,
    }
}

/// Whether reports are kept after such an end.
pub(crate) fn keeps_reports(end: SessionEnd) -> bool
    ensures { result ≡ keeps_reports end }
{
    match end {
        SessionEnd::Ended
        | SessionEnd::Closed
        | SessionEnd::Stopped
        | SessionEnd::Refused
        | SessionEnd::TooLong => true,
        SessionEnd::ReadFault | SessionEnd::WriteFault | SessionEnd::NoMemory => false,
    }
}
