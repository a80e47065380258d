//! Storms, of which nothing that is handed in is touched but the output.
use super::*;
use crate::expect::holds;

// What a storm of 2,000 crashes tells.
const STORM: &[u8] =
    b"crashes 2000\nreports 2000\nmade0.dll 400\nmade1.dll 400\nmade2.dll 400\nmade3.dll 400\nmade4.dll 400\n";

// Whether a storm with these words writes this text, and serves nobody else.
fn tells<R: Threads + Wait + Sync>(
    rt: &R,
    alloc: Global,
    words: &[&str],
    text: &[u8],
) -> Result<bool, NoMemory> {
    let ran = run(rt, alloc, words, &[SUBMISSION], &[])?;
    Ok(
        ran.status == 0
            && ran.output.bytes() == text
            && ran.served.connections() == 0
            && ran.listener.written(0).is_none(),
    )
}

// Whether a storm of 2,000 crashes by so many processors tells what it has to.
fn tells_all<R: Threads + Wait + Sync>(
    rt: &R,
    alloc: Global,
    processors: &str,
) -> Result<bool, NoMemory> {
    let words = [
        "storm",
        "--seed",
        "7",
        "--count",
        "2000",
        "--processors",
        processors,
    ];
    tells(rt, alloc, &words, STORM)
}

#[test]
fn a_storm_by_one_processor(rt: HostRuntime) -> Result<(), Fail> {
    holds(&rt, tells_all(&rt, rt.alloc(), "1")?);
    Ok(())
}

#[test]
fn a_storm_by_two_processors(rt: HostRuntime) -> Result<(), Fail> {
    holds(&rt, tells_all(&rt, rt.alloc(), "2")?);
    Ok(())
}

#[test]
fn a_storm_by_four_processors(rt: HostRuntime) -> Result<(), Fail> {
    holds(&rt, tells_all(&rt, rt.alloc(), "4")?);
    Ok(())
}

#[test]
fn a_storm_of_one_or_few(rt: HostRuntime) -> Result<(), Fail> {
    let one = b"crashes 1\nreports 1\nmade1.dll 1\n";
    holds(&rt, tells(&rt, rt.alloc(), &["storm"], one)?);
    let words = ["storm", "--seed", "3", "--count", "7", "--collectors", "8"];
    let few =
        b"crashes 7\nreports 7\nmade0.dll 1\nmade1.dll 1\nmade2.dll 1\nmade3.dll 2\nmade4.dll 2\n";
    holds(&rt, tells(&rt, rt.alloc(), &words, few)?);
    Ok(())
}
