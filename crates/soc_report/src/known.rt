//! What is known of a crash.
ghost use Rattle.std.specs.Prelude.{◌≡◌, IfOk};
ghost use Rattle.soc_raw.specs.RawCrash.{crash_of};
ghost use Rattle.soc_report.specs.Dumps.{reading_of};
ghost use Rattle.soc_report.specs.Kits.{kit_of};
ghost use Rattle.soc_report.specs.Report.{known_of, report_of};
ghost use Rattle.soc_report.specs.inner.Known.{known_view};

use crate::dump::{Reading, module_count};
use crate::kit::Kit;
use crate::row::row_of;
use crate::stack::sign;
use soc_base::NoMemory;
use soc_raw::RawCrash;
use soc_schema::Row;
use soc_sigrules::Signature;
use std::alloc::Global;

/// What a report is made of.
#[derive(Debug, Drop)]
pub struct Known<'a> {
    pub raw: &'a RawCrash,
    pub reading: &'a Reading<'a>,
    pub module_count: Option<u64>,
    pub frame_count: u64,
    pub signature: Signature,
}

impl<'a> Known<'a> {
    /// What is known of a crash by its annotations, its dump, a walk and its signature.
    pub fn of(
        alloc: Global,
        kit: &Kit<'_>,
        raw: &'a RawCrash,
        reading: &'a Reading<'a>,
    ) -> Result<Known<'a>, NoMemory>
        requires { reading.now ≡ reading_of (crash_of raw.now) }
        ensures { IfOk result (λ known. known_view known
            ≡ known_of (kit_of kit.now) (crash_of raw.now)) }
    {
        let signed = sign(alloc, kit, raw, reading)?;
        Ok(Known {
            raw,
            reading,
            module_count: module_count(raw, reading),
            frame_count: signed.frame_count,
            signature: signed.signature,
        })
    }
}

/// The report of a crash, whose dump gave this reading.
#[tactic(auto, unfolding(crate::specs::Report::report_of))]
pub fn report(
    alloc: Global,
    kit: &Kit<'_>,
    raw: &RawCrash,
    reading: &Reading<'_>,
) -> Result<Row, NoMemory>
    requires { reading.now ≡ reading_of (crash_of raw.now) }
    ensures { IfOk result (λ row. row ≡ report_of (crash_of raw.now) (kit_of kit.now)) }
{
    let known = Known::of(alloc, kit, raw, reading)?;
    row_of(alloc, &known)
}
