//! Reporters without lists and symbols.
use soc_base::NoMemory;
use soc_raw::RawCrash;
use soc_schema::{Bare, Reporter, Row};
use std::alloc::Global;

/// A reporter whose lists have a digest.
#[derive(Clone, Copy, Debug)]
pub struct Digested {
    pub digest: [u8; 32],
}

impl Reporter for Digested {
    ghost use Rattle.std.specs.Prelude.{Some};
    ghost use Rattle.soc_schema.specs.Reports.{bare_row, bare_row-tells};

    ghost row_of = { λ _ crash. bare_row crash };

    ghost digest_of = { λ reporter. Some reporter.digest };

    ghost tells = { λ _ crash. bare_row-tells crash };

    fn row(&self, alloc: Global, raw: &RawCrash) -> Result<Row, NoMemory> {
        Bare.row(alloc, raw)
    }

    fn digest(&self) -> Option<[u8; 32]> {
        Some(self.digest)
    }
}

/// A reporter that wants memory.
pub struct Wanting;

impl Reporter for Wanting {
    ghost use Rattle.std.specs.Prelude.{None};
    ghost use Rattle.soc_schema.specs.Reports.{bare_row, bare_row-tells};

    ghost row_of = { λ _ crash. bare_row crash };

    ghost digest_of = { λ _. None };

    ghost tells = { λ _ crash. bare_row-tells crash };

    fn row(&self, _alloc: Global, _raw: &RawCrash) -> Result<Row, NoMemory> {
        Err(NoMemory)
    }

    fn digest(&self) -> Option<[u8; 32]> {
        None
    }
}
