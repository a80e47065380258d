//! A desk that holds no crash. It counts its commands, and a stop stops it.
ghost use Rattle.std.specs.Prelude.{◌≡◌, ◌≤◌, if◌then◌else◌};
ghost use Rattle.soc_schema.specs.Permits.{holds};
ghost use Rattle.soc_desk.specs.Kinds.{IsReplyTo};

use soc_desk::{Command, Counts, Desk, KeepingDesk, Receipt, Refusal, Reply};
use soc_schema::{Caller, Permission};

// How many commands are counted.
const MOST: u64 = 100;

#[derive(Drop)]
pub(crate) struct Booth {
    asked: u64,
    stopped: bool,
    ghost few: { asked ≤ 100 },
}

impl Booth {
    pub(crate) fn new() -> Booth
        ensures { result.asked ≡ 0 }
    {
        Booth {
            asked: 0,
            stopped: false,
        }
    }
}

impl Desk for Booth {
    ghost use Rattle.std.specs.Prelude.{◌<◌, ◌≤◌, ◌^◌, ⊤};

    ghost Allows = { λ _ _. ⊤ };

    ghost Asks = { λ before _ _ after. (before.asked ≤ after.asked) × (after.asked < 2 ^ 60) };

    fn ask(&mut self, command: Command) -> Receipt {
        let reply = reply_to(&command);
        self.stopped = self.stopped || matches!(&reply, Reply::Stopping);
        if self.asked < MOST {
            self.asked += 1;
        }
        Receipt {
            front: 0,
            stopped: self.stopped,
            reply,
        }
    }

    ghost allows_others = { λ _ _ _. tt };
}

impl KeepingDesk for Booth {
    ghost added = { λ booth. booth.asked };

    fn kept(&self) -> u64 {
        self.asked
    }

    ghost added_grows = { λ _ _ _ _ asked. asked };
}

// That the caller lacks the permission, or else that memory wants.
fn refusal(caller: &Caller, permission: Permission) -> Reply
    ensures { result ≡ Reply.Refused
        (if holds caller.now.permissions permission then Refusal.NoMemory else Refusal.NoPermission
        permission) }
{
    if caller.permissions.has(permission) {
        return Reply::Refused(Refusal::NoMemory);
    }
    Reply::Refused(Refusal::NoPermission { name: permission })
}

// The counts of an empty log.
const NOTHING: Counts = Counts {
    asks: 0,
    crashes: 0,
    due: 0,
    journal_size: 8,
    reports: 0,
    withdrawn: 0,
    in_doubt: false,
};

fn reply_to(command: &Command) -> Reply
    ensures { IsReplyTo command.now result }
{
    match command {
        Command::Reprocess { caller, .. } => refusal(caller, Permission::ReprocessCrashes),
        Command::Dump { caller, .. } => refusal(caller, Permission::ViewRawdump),
        Command::Withdraw { caller, .. } => refusal(caller, Permission::Operate),
        Command::Turn { caller } => refusal(caller, Permission::Operate),
        Command::Drain { caller } => refusal(caller, Permission::Operate),
        Command::Stop { caller } => {
            if caller.permissions.has(Permission::Operate) {
                return Reply::Stopping;
            }
            refusal(caller, Permission::Operate)
        }
        Command::Counts { caller } => {
            if caller.permissions.has(Permission::Operate) {
                return Reply::Counted(NOTHING);
            }
            refusal(caller, Permission::Operate)
        }
        Command::Fetch { .. } => Reply::Refused(Refusal::NoCrash),
        _ => Reply::Refused(Refusal::NoMemory),
    }
}
