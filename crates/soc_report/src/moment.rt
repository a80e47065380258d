//! Moments as texts.
ghost use Rattle.std.specs.Prelude.{◌≡◌, ◌<◌, IfOk};
ghost use Rattle.soc_raw.specs.Day.{IsMoment, IsDay};
ghost use Rattle.soc_report.specs.Annotations.{date_text, time_text, moment_text};

use soc_base::{NoMemory, Text};
use soc_raw::{Date, day_of};
use std::alloc::Global;

const SECONDS_OF_A_DAY: u64 = 86_400;

/// A day as `YYYY-MM-DD`.
fn date_text(alloc: Global, date: Date) -> Result<Text, NoMemory>
    requires { IsDay date }
    ensures { IfOk result (λ text. text ≡ date_text date) }
{
    let year = date.year;
    let month = date.month;
    let day = date.day;
    Ok(Text::from(format!(in alloc; "{year}-{month:02}-{day:02}")?))
}

/// A second of a day as `HH:MM:SS`.
fn time_text(alloc: Global, second: u64) -> Result<Text, NoMemory>
    requires { second < 86_400 }
    ensures { IfOk result (λ text. text ≡ time_text second) }
{
    let hour = second / 3600;
    let minute = second / 60 % 60;
    let rest = second % 60;
    Ok(Text::from(format!(in alloc; "{hour:02}:{minute:02}:{rest:02}")?))
}

/// A moment as `YYYY-MM-DDTHH:MM:SSZ`.
pub fn moment_text(alloc: Global, moment: u64) -> Result<Text, NoMemory>
    requires { IsMoment moment }
    ensures { IfOk result (λ text. text ≡ moment_text moment) }
{
    let date = date_text(alloc, day_of(moment))?;
    let time = time_text(alloc, moment % SECONDS_OF_A_DAY)?;
    let date = date.as_str();
    let time = time.as_str();
    Ok(Text::from(format!(in alloc; "{date}T{time}Z")?))
}
