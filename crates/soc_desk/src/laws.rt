//! Laws of the desk's definitions.
ghost use Rattle.std.specs.Prelude.{IsTrue};
ghost use Rattle.soc_desk.specs.Asks.{Asks};
ghost use Rattle.soc_desk.specs.Basis.{Basis};
ghost use Rattle.soc_desk.specs.Batches.{BatchesAreRuns};
ghost use Rattle.soc_desk.specs.Laws.{HidesCrashes, KeepsViews, HidesFields, ReadsShowTheView, DueByHistory, DrainsAll, DigestsDecide, StepsGrow, Acknowledges, Lasts};
ghost use Rattle.soc_desk.specs.State.{State};
ghost use Rattle.soc_desk.specs.declared.desk.Command.{Command};
ghost use Rattle.soc_desk.specs.declared.desk.Receipt.{Receipt};

use soc_edge::Disk;

/// Hidden, withdrawn and absent crashes are in no view.
pub fn hides_crashes()
    ensures { HidesCrashes }
{}

/// A legal log that gains a hidden crash, or a change of one, has the same view.
pub fn keeps_views()
    ensures { KeepsViews }
{}

/// Rows that differ only in fields that aren't granted give equal views.
pub fn hides_fields()
    ensures { HidesFields }
{}

/// A caller's reads depend on the caller's view alone.
pub fn reads_show_the_view()
    ensures { ReadsShowTheView }
{}

/// On legal logs the due crashes are the held ones of digit 0 or asked for that weren't processed since.
pub fn due_by_history()
    ensures { DueByHistory }
{}

/// After a whole drain nothing is due, and each crash that was due has the reporter's row of its raw crash.
pub fn drains_all()
    ensures { DrainsAll }
{}

/// Without a doubt, content of another digest is refused as other content, whatever the disk does.
pub fn digests_decide()
    ensures { DigestsDecide }
{}

/// What a step appends to the log is what its command adds under its reply.
pub fn steps_grow()
    ensures { StepsGrow }
{}

/// A change whose writing was acknowledged is the last of the log.
pub fn acknowledges()
    ensures { Acknowledges }
{}

/// What the log keeps lasts over a command, in every image that a stop may leave, and so over commands that follow one
/// another.
pub fn changes_last<D: Disk>()
    ensures asked { (basis : Basis) (before after : State) (command : Command) (receipt : Receipt)
        (disk disk' : D) → IsTrue basis.is_told
        → Asks basis before (D.state disk) command receipt after (D.state disk')
        → Lasts before (D.state disk) after (D.state disk') }
    ensures goes_on { (first second third : State) (disk disk' disk'' : D)
        → Lasts first (D.state disk) second (D.state disk')
        → Lasts second (D.state disk') third (D.state disk'')
        → Lasts first (D.state disk) third (D.state disk'') }
{}

/// Submissions that were written together and all stored are a run of single steps.
pub fn batches_are_runs()
    ensures { BatchesAreRuns }
{}
