//! The desk over the journal on a disk.
ghost use Rattle.soc_book.specs.inner.Safe.{IsSafe-prop};
ghost use Rattle.soc_book.specs.inner.Stands.{IsSafe};

use crate::submission::NewCrash;
use soc_desk::Limits;
use soc_edge::Disk;
use soc_ledger::Ledger;
use soc_schema::Reporter;
use soc_store::Store;
use soc_vault::Vault;
use std::alloc::Global;

/// A desk over a disk that it is lent. Raw crashes stay on the disk; of each, its id, places, product and digest are in
/// memory, and the row of its report.
#[derive(Drop)]
pub struct Book<'a, D: Disk, R: Reporter> {
    pub(crate) alloc: Global,
    pub(crate) reporter: &'a R,
    pub(crate) limits: Limits,
    pub(crate) ledger: Ledger,
    pub(crate) vault: Vault<'a, D>,
    /// The rows of reports, each at its crash's number.
    pub(crate) store: Store,
    /// The changes whose write failed.
    pub(crate) doubt: Option<Change>,
    ghost safe: { IsSafe ledger vault.journal doubt } by { IsSafe-prop ledger vault.journal doubt },
}

/// Changes of the log that the journal keeps, of one write.
#[derive(Debug, Drop)]
pub(crate) enum Change {
    /// A new crash is accepted.
    Accept(NewCrash),
    /// New crashes of different ids are accepted.
    Accepts(Vec<NewCrash>),
    /// The crash of a number is asked for.
    Ask(u32),
    /// The crash of a number is withdrawn.
    Withdraw(u32),
    /// The reports of the crashes of these numbers are kept, as the run's own lists and symbols made them.
    Reports(Vec<u32>),
}

/// How many reports, or new crashes, are written together at most.
pub(crate) const MOST_TOGETHER: u32 = 1_024;

/// How many bytes of entries are written together at most, but for those of the last one.
pub(crate) const MOST_BYTES: u64 = 4_194_304;

/// How many events a writing command adds at most: the doubt that it settles, and its own.
pub(crate) const ROOM: u32 = MOST_TOGETHER + 1;
