//! Crashes that are looked up, and read from the disk.
ghost use Rattle.std.specs.Prelude.{◌≡◌, ◌<◌, false, length, MatchOption};
ghost use Rattle.soc_edge.specs.Disk.{Looks};
ghost use Rattle.soc_ledger.specs.Events.{is_held};
ghost use Rattle.soc_ledger.specs.State.{id_of};
ghost use Rattle.soc_book.specs.Books.{ForEachState, SameSetting, StandsFor, disk_of};
ghost use Rattle.soc_book.specs.inner.Pieces.{Decodes, IsHeldAs, IsRead, IsReading, Sees};

use crate::book::Book;
use soc_desk::Refusal;
use soc_edge::Disk;
use soc_journal::ReadError;
use soc_raw::{CrashId, RawCrash, RecordError};
use soc_schema::{Caller, Reporter, visible};
use std::alloc::Global;

impl<'a, D: Disk, R: Reporter> Book<'a, D, R> {
    /// The number of the held crash of an id.
    pub(crate) fn held(&self, id: CrashId) -> Option<u32>
        ensures { MatchOption result (is_held self.now.ledger.log id ≡ false)
            (IsHeldAs self.now.ledger id) }
    {
        let number = self.ledger.number_of(id)?;
        if self.ledger.crash(number).standing.withdrawn {
            return None;
        }
        Some(number)
    }

    /// The number of the crash of an id that the caller may see.
    pub(crate) fn seen(&self, caller: &Caller, id: CrashId) -> Result<u32, Refusal>
        ensures { Sees self.now.ledger caller.now id result }
    {
        let Some(number) = self.held(id) else {
            return Err(Refusal::NoCrash);
        };
        let product = self.ledger.crash(number).filed.product.as_ref();
        if !visible(caller, product.map(|product| product.as_str())) {
            return Err(Refusal::NoCrash);
        }
        Ok(number)
    }

    /// The raw crash of a number, read from the disk.
    pub(crate) fn read(&mut self, number: u32) -> Result<RawCrash, Refusal>
        requires { number < length self.old.ledger.crashes }
        ensures setting { SameSetting self.old self.new }
        ensures reply { IsReading (id_of self.old.ledger number) result }
        ensures ledger { self.new.ledger ≡ self.old.ledger }
        ensures store { self.new.store ≡ self.old.store }
        ensures doubt { self.new.doubt ≡ self.old.doubt }
        ensures looks { Looks (disk_of self.old) (disk_of self.new) }
        ensures stands { ForEachState self.old (λ basis state. StandsFor basis self.new state) }
        ensures read { ForEachState self.old
            (λ basis state. IsRead basis state.log (id_of self.old.ledger number) result
            (disk_of self.old) (disk_of self.new)) }
    {
        let filed = &self.ledger.crash(number).filed;
        let id = filed.id;
        let place = filed.place;
        let record = match self.vault.read(self.alloc, place) {
            Ok(record) => record,
            Err(ReadError::StoreFault) => return Err(Refusal::StoreFault),
            Err(ReadError::Altered) => return Err(Refusal::Altered { id }),
            Err(ReadError::NoMemory) => return Err(Refusal::NoMemory),
        };
        raw_of_record(self.alloc, id, record.as_slice())
    }
}

/// The raw crash of an id, of which the bytes are to be the record.
fn raw_of_record(alloc: Global, id: CrashId, body: &[u8]) -> Result<RawCrash, Refusal>
    ensures { Decodes id body.now result }
{
    let raw = match RawCrash::decode(alloc, body) {
        Ok(raw) => raw,
        Err(RecordError::BadRecord) => return Err(Refusal::Altered { id }),
        Err(RecordError::NoMemory) => return Err(Refusal::NoMemory),
    };
    if raw.id != id {
        return Err(Refusal::Altered { id });
    }
    Ok(raw)
}
