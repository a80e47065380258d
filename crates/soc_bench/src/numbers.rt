//! Numbers among a workload's words.
ghost use Rattle.std.specs.Prelude.{◌≤◌, IfOk};

use crate::fault::Fault;
use soc_text::number;

/// The digits that a number may have.
const MOST_DIGITS: usize = 10;

/// The number that a word writes, if it isn't above the most.
pub fn number_up_to(word: &String, most: u64) -> Result<u64, Fault>
    ensures { IfOk result (λ n. n ≤ most) }
{
    match number(word.as_bytes(), MOST_DIGITS) {
        Some(number) if number <= most => Ok(number),
        _ => Err(Fault::Words),
    }
}
