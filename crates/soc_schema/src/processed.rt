//! A raw crash that was processed.
ghost use Rattle.std.specs.Prelude.{◌≡◌, IfOk, IfErr};
ghost use Rattle.soc_raw.specs.RawCrash.{crash_of};

use crate::reporter::Reporter;
use crate::row::Row;
use soc_base::NoMemory;
use soc_raw::RawCrash;
use std::alloc::Global;
use std::marker::Model;

/// A raw crash and a reporter's row of it. Only a reporter makes one.
#[derive(Debug, Drop)]
pub struct Processed {
    raw: RawCrash,
    row: Row,
}

impl Model for Processed {
    ghost use Rattle.soc_schema.specs.Reports.{Report, TellsCrash};

    ghost Value = { Report };

    ghost use Rattle.soc_raw.specs.RawCrash.{crash_of};

    ghost view = { λ p. record { crash = crash_of p.raw; row = p.row } };

    ghost invariant = { λ p. TellsCrash (crash_of p.raw) p.row };
}

impl Processed {
    ghost use Rattle.std.specs.Prelude.{◌≡◌, IfOk, IfErr};
    ghost use Rattle.soc_raw.specs.RawCrash.{crash_of};
    ghost use Rattle.soc_schema.specs.Reports.{Report, TellsCrash};

    /// Has the reporter make the raw crash's row. Where memory is wanting, the raw crash comes back.
    pub fn make<R: Reporter>(
        alloc: Global,
        reporter: &R,
        raw: RawCrash,
    ) -> Result<Processed, (RawCrash, NoMemory)>
        ensures ok { IfOk result (λ processed. processed
            ≡ record { crash = crash_of raw; row = R.row_of reporter.now (crash_of raw) }) }
        ensures err { IfErr result (λ back. crash_of back.0 ≡ crash_of raw) }
    {
        match reporter.row(alloc, &raw) {
            Ok(row) => Ok(Processed { raw, row }),
            Err(error) => Err((raw, error)),
        }
    }

    /// The raw crash.
    pub fn raw(&self) -> &RawCrash
        ensures { crash_of result.now ≡ self.now.crash }
    {
        &self.raw
    }

    /// The row.
    pub fn into_row(self) -> Row
        ensures value { result ≡ self.row }
        ensures tells { TellsCrash self.crash result }
    {
        let Processed { raw: _, row } = self;
        row
    }
}
