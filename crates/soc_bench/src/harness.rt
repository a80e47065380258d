//! The harness: work that is done again and again, and how fast it went.
use crate::fault::Fault;
use std::alloc::Global;
use std::time::CpuClock;

/// How many rounds work is timed for. The best one counts.
const ROUNDS: u64 = 5;

/// How long a round takes, in nanoseconds, where the work takes less.
const ROUND: u64 = 200_000_000;

/// Work that is timed.
pub trait Work {
    /// Does the work once, and says what it counted.
    fn once(&mut self, alloc: Global) -> Result<u64, Fault>;
}

/// Does some work again and again. It prints what the work counted, and to standard error how long it takes in the best
/// round, in nanoseconds of processor time, and how many units a second that is, where it has so many units each time.
pub fn time<R: CpuClock + Print + Eprint + AllocGlobal, W: Work>(
    rt: &R,
    name: &str,
    unit: &str,
    units: usize,
    work: &mut W,
) -> Result<(), Fault> {
    let counted = work.once(rt.alloc())?;
    let mut best = each(rt, work, 1)?;
    let times = (ROUND / best.max(1)).clamp(1, ROUND);
    for _ in 0..ROUNDS {
        best = best.min(each(rt, work, times)?);
    }
    println!(rt; "{name}: {counted}")?;
    let rate = units as u128 * 1_000_000_000 / u128::from(best.max(1));
    eprintln!(rt; "{name}: {best} ns, {rate} {unit}/s")?;
    Ok(())
}

/// The nanoseconds of processor time that the work takes each time, done so many times.
pub fn each<R: CpuClock + AllocGlobal, W: Work>(
    rt: &R,
    work: &mut W,
    times: u64,
) -> Result<u64, Fault> {
    let start = rt.process_cpu_time()?;
    for _ in 0..times {
        let _ = work.once(rt.alloc())?;
    }
    let took = rt.process_cpu_time()?.saturating_sub(start).as_nanos();
    Ok(u64::try_from(took)? / times.max(1))
}
