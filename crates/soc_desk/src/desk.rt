//! What a desk is asked, and what it answers.
use soc_base::{Bytes, NoMemory, Text, Texts};
use soc_query::{Answer, Query};
use soc_raw::{CrashId, RawCrash};
use soc_schema::{Caller, Permission, Processed, Row};
use soc_tops::{Tops, TopsQuery};

/// What a desk is asked.
#[derive(Debug, Drop)]
pub enum Command {
    /// Keep a crash.
    Submit {
        raw: RawCrash,
    },
    /// Process a crash, unless it has a report.
    Priority {
        caller: Caller,
        id: CrashId,
    },
    /// Process a crash, again where it has a report.
    Reprocess {
        caller: Caller,
        id: CrashId,
    },
    /// Show a crash nowhere any longer. Its id stays taken.
    Withdraw {
        caller: Caller,
        id: CrashId,
    },
    /// Show the annotations of a crash.
    Raw {
        caller: Caller,
        id: CrashId,
    },
    /// Show the report of a crash.
    Processed {
        caller: Caller,
        id: CrashId,
    },
    /// Show a dump of a crash.
    Dump {
        caller: Caller,
        id: CrashId,
        name: Text,
    },
    /// Give the raw crash of a crash, of which its stack is made.
    Stack {
        caller: Caller,
        id: CrashId,
    },
    /// Search the reports. The query holds its caller.
    Search {
        query: Query,
    },
    /// Count the reports of a product's version by signature. The query holds its caller.
    Tops {
        query: TopsQuery,
    },
    /// Process the first crash that is due.
    Turn {
        caller: Caller,
    },
    /// Process each crash that is due.
    Drain {
        caller: Caller,
    },
    /// Stop the service.
    Stop {
        caller: Caller,
    },
    /// Hand out the raw crash of a due crash.
    Fetch {
        id: CrashId,
    },
    /// Give a due crash the row that the desk's own reporter made of its raw crash.
    Finish {
        processed: Processed,
    },
    /// Count what the log has.
    Counts {
        caller: Caller,
    },
}

/// What a desk answers.
#[derive(Debug, Drop)]
pub enum Reply {
    /// The crash is kept, and is due at once or only when it is asked for.
    Stored { id: CrashId, due: bool },
    /// A crash with this id and the same annotations and dumps was kept before.
    Repeated { id: CrashId },
    /// The crash was asked for and is due now, or it was due or had a report before.
    Asked { asked: bool, due: bool },
    /// The crash is withdrawn.
    Withdrawn,
    /// The granted annotations of a crash.
    Raw(Texts),
    /// The granted fields of a crash's report.
    Row(Row),
    /// A dump's bytes.
    Dump(Bytes),
    /// The whole raw crash of a crash that the caller may see. What isn't granted is in it too.
    Record(RawCrash),
    /// What a search found.
    Found(Answer),
    /// The top crashers.
    Tops(Tops),
    /// The crash that was processed, where one was due.
    Turned(Option<CrashId>),
    /// How many crashes were processed.
    Drained(u64),
    /// How many reports were kept for later runs.
    Kept(u64),
    /// The service stops.
    Stopping,
    /// The raw crash, where the crash is due.
    Fetched(Option<RawCrash>),
    /// Whether the crash was due and has its row now.
    Finished { changed: bool },
    /// What the log has, counted.
    Counted(Counts),
    /// The command was refused.
    Refused(Refusal),
}

/// What a log has, counted.
#[derive(Clone, Copy, Debug, PartialEq, Eq)]
pub struct Counts {
    /// How often a crash was asked for.
    pub asks: u64,
    /// How many crashes are held.
    pub crashes: u32,
    /// How many crashes are due.
    pub due: u32,
    /// How many bytes the journal's header and entries have.
    pub journal_size: u64,
    /// How many held crashes have a report.
    pub reports: u32,
    /// How many crashes were withdrawn.
    pub withdrawn: u32,
    /// Whether a write failed, and it isn't known yet what of it was kept.
    pub in_doubt: bool,
}

/// Why a command is refused.
#[derive(Clone, Copy, Debug, PartialEq, Eq)]
pub enum Refusal {
    /// The disk failed. Whether a change is kept will show at the next write.
    StoreFault,
    /// The journal has no room for the change.
    JournalFull,
    /// Another crash has this id.
    OtherContent { id: CrashId },
    /// No crash that the caller may see has this id.
    NoCrash,
    /// The crash has no report.
    NotProcessed,
    /// As many crashes were accepted as may be.
    TooManyCrashes,
    /// The caller lacks this permission.
    NoPermission { name: Permission },
    /// What the disk holds of the crash isn't what was kept.
    Altered { id: CrashId },
    /// The crash of this id was withdrawn.
    Withdrawn { id: CrashId },
    /// An allocation failed.
    NoMemory,
}

impl From<NoMemory> for Refusal {
    ghost use Rattle.std.specs.Prelude.{◌≡◌};
    ghost use Rattle.soc_desk.specs.declared.desk.Refusal.TheVariants.{NoMemory as no_memory};

    ghost from_gives = { λ _ refusal. refusal ≡ no_memory };

    fn from(_error: NoMemory) -> Refusal {
        Refusal::NoMemory
    }
}

/// A reply, and what the log is after the command.
#[derive(Debug, Drop)]
pub struct Receipt {
    /// How many changes the log has.
    pub front: u64,
    /// Whether the log has a stop.
    pub stopped: bool,
    pub reply: Reply,
}

/// How much is kept.
#[derive(Clone, Copy, Debug, PartialEq, Eq)]
pub struct Limits {
    /// The most bytes of a journal.
    pub journal_bytes: u64,
    /// The most crashes that are accepted, withdrawn or not.
    pub crashes: u32,
}

/// Whatever answers commands: a desk over a disk, or one that threads share.
pub trait Desk {
    ghost use Rattle.soc_desk.specs.declared.desk.Command.{Command};
    ghost use Rattle.soc_desk.specs.declared.desk.Receipt.{Receipt};
    ghost use Rattle.soc_desk.specs.Kinds.{IsReplyTo, NeedsNothing};

    // When a command may be asked. Every command but `Finish` may be asked at any time.
    ghost Allows: { Self → Command → Type 0 };

    // What a command does: the desk before it, the command, the receipt, the desk after it.
    ghost Asks: { Self → Command → Receipt → Self → Type 0 };

    /// Carries out one command.
    fn ask(&mut self, command: Command) -> Receipt
        requires { Allows self.old command }
        ensures asks { Asks self.old command result self.new }
        ensures kind { IsReplyTo command result.reply };

    ghost allows_others: { (desk : Self) (command : Command) → NeedsNothing command
        → Allows desk command };
}
