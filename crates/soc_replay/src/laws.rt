//! What holds of every run.
ghost use Rattle.soc_replay.specs.Lives.{RunsAreLives};

use soc_edge::Disk;

/// A run that serves a journal is a life of the desk.
pub fn runs_are_lives<D: Disk>()
    ensures { (disk disk' : D) → RunsAreLives (D.state disk) (D.state disk') }
{}
