//! How the service ends, and the status that this gives.
ghost use Rattle.std.specs.Prelude.{◌≡◌};
ghost use Rattle.soc_serve.specs.Ends.{status_of};

use crate::lines::LinesFault;
use crate::sweep::SweepFault;
use soc_replay::RunEnd;

/// How the service ends.
#[derive(Clone, Copy)]
pub enum HostEnd {
    /// Before its journal was open.
    Before(RunEnd),
    /// The last sweep wasn't done.
    Swept(SweepFault),
    /// The lines weren't written.
    Lines(LinesFault),
    /// The lines were written, after the listener had failed.
    Failed,
    /// The lines were written, after a stop or the end of the listener.
    Done,
}

impl HostEnd {
    /// The status that the process ends with.
    pub fn status(self) -> u8
        ensures { result ≡ status_of self }
    {
        match self {
            HostEnd::Before(end) => end.status(),
            HostEnd::Swept(SweepFault::Disk) => 4,
            HostEnd::Swept(SweepFault::NoMemory) => 10,
            HostEnd::Lines(LinesFault::Cut) => 7,
            HostEnd::Lines(LinesFault::NoMemory) => 10,
            HostEnd::Failed => 6,
            HostEnd::Done => 0,
        }
    }
}
