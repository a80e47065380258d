//! A desk that is watched for a stop.
ghost use Rattle.std.specs.Prelude.{◌≡◌, false};

use soc_desk::{Command, Desk, Receipt};

/// A desk that is lent, and whether a receipt said stopped since then.
#[derive(Drop)]
pub(crate) struct Watched<'d, K> {
    pub(crate) desk: &'d mut K,
    pub(crate) stopped: bool,
}

impl<'d, K: Desk> Desk for Watched<'d, K> {
    ghost use Rattle.std.specs.Prelude.{◌≡◌, ◌||◌};

    ghost Allows = { λ watched command. K.Allows watched.desk.now command };

    ghost Asks = { λ before command receipt after. (after.desk.ghost_name ≡ before.desk.ghost_name)
        × K.Asks before.desk.now command receipt after.desk.now
        × (after.stopped ≡ (before.stopped || receipt.stopped)) };

    fn ask(&mut self, command: Command) -> Receipt {
        let receipt = self.desk.ask(command);
        self.stopped = self.stopped || receipt.stopped;
        receipt
    }

    ghost allows_others = { λ watched command needs_nothing.
        K.allows_others watched.desk.now command needs_nothing };
}
