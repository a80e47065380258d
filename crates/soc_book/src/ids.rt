//! The ids of the crashes that a book holds.
ghost use Rattle.std.specs.Prelude.{◌≡◌, IfOk};
ghost use Rattle.soc_ledger.specs.Events.{held_ids};
ghost use Rattle.soc_desk.specs.Log.{events};
ghost use Rattle.soc_book.specs.Books.{ForEachState, log_in};
ghost use Rattle.soc_book.specs.Ids.{in_id_order};

use crate::book::Book;
use soc_base::NoMemory;
use soc_edge::Disk;
use soc_raw::CrashId;
use soc_schema::Reporter;

impl<'a, D: Disk, R: Reporter> Book<'a, D, R> {
    /// The ids of the crashes that are held, in rising byte order.
    pub fn ids(&self) -> Result<Vec<CrashId>, NoMemory>
        ensures ids { IfOk result (λ ids. ids.items ≡ in_id_order (held_ids (log_in self.now))) }
        ensures of_log { IfOk result (λ ids. ForEachState self.now
            (λ basis state. ids.items ≡ in_id_order (held_ids (events basis state.log)))) }
    {
        let mut ids = self.held_ids()?;
        ids.sort_by(|a, b| a.cmp(b))?;
        Ok(ids)
    }

    /// The same in the order in which the crashes were accepted.
    fn held_ids(&self) -> Result<Vec<CrashId>, NoMemory>
        ensures { IfOk result (λ ids. ids.items ≡ held_ids (log_in self.now)) }
    {
        let mut ids = Vec::new(self.alloc);
        for number in 0..self.ledger.accepted() {
            let crash = self.ledger.crash(number);
            if !crash.standing.withdrawn {
                ids.push(crash.filed.id)?;
            }
        }
        Ok(ids)
    }
}
