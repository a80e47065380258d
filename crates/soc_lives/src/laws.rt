//! Laws of the lives that follow one another on one disk, whatever they are asked and wherever they are stopped.
ghost use Rattle.soc_lives.specs.Laws.{KeepsChanges, AcknowledgedStays, RepeatsActOnce, RowsAreOfCrashes, KeptReportsStay, WithdrawnStaysHidden};
ghost use Rattle.soc_lives.specs.Runs.{GroupsAreCarried, KeepingIsCarried, OpensLife, RunsAreLives, StopsEndLives};

use soc_edge::Disk;

/// A life opens with what the one before it kept, and with its doubt or without; each later life begins with all of that.
pub fn keeps_changes()
    ensures { KeepsChanges }
{}

/// Acknowledged changes stand at their place in every later life, and an accept nowhere else.
pub fn acknowledged_stays()
    ensures { AcknowledgedStays }
{}

/// However often a submission is asked, lost and repeated, its id is accepted once, and each doubt is settled once at most.
pub fn repeats_act_once()
    ensures { RepeatsActOnce }
{}

/// Each row is what the lists and symbols of the life give of its crash, and a crash is the same in every later life.
pub fn rows_are_of_crashes()
    ensures { RowsAreOfCrashes }
{}

/// Each later life with the same digest opens with a kept report, and its crash isn't due, unless it was asked for or
/// withdrawn since.
pub fn kept_reports_stay()
    ensures { KeptReportsStay }
{}

/// A withdrawn crash is shown by no later life.
pub fn withdrawn_stays_hidden()
    ensures { WithdrawnStaysHidden }
{}

/// A journal that is opened begins a life.
pub fn opens_life()
    ensures { OpensLife }
{}

/// What a desk over a disk does is an action of a life, and a stop until the answer leaves what a life may leave there.
pub fn actions_are_carried<D: Disk>()
    ensures groups { (disk disk' last : D) → GroupsAreCarried (D.state disk) (D.state disk') (D.state last) }
    ensures keeping { (disk disk' last : D) → KeepingIsCarried (D.state disk) (D.state disk') (D.state last) }
{}

/// Each stop of a run from the moment on at which its journal stood ends a life.
pub fn stops_end_lives<D: Disk>()
    ensures { (last : D) → StopsEndLives (D.state last).since }
{}

/// A run of a desk from the opening of its journal on is a life, with what is carried behind it.
pub fn runs_are_lives<D: Disk>()
    ensures { (last : D) → RunsAreLives (D.state last).since }
{}
