//! Threads that work beside each other.
ghost use Rattle.std.specs.Prelude.{◌≡◌, ◌<◌, ◌^◌, vec_len};
ghost use Rattle.std.specs.Thread.{IsSync, IsSend};
ghost use Rattle.std.specs.Fork.{AcceptsEach, ChangesEach};

use std::thread::{self, Threads, join};

/// Has each of the first work in a thread of its own, and then `end`; and beside them each of the second. Where a thread
/// can't be started, the caller does its work itself: that of the second at the end.
pub fn side_by_side<
    R: Threads + Sync,
    A: Send + Drop,
    B: Send + Drop,
    F: Fn(usize, &mut A) + Sync,
    G: Fn(usize, &mut B) + Sync,
    P,
    E: FnOnce() -> P,
>(rt: &R, first: Vec<A>, second: Vec<B>, work: &F, help: &G, end: E) -> (Vec<A>, Vec<B>, P)
    requires first { AcceptsEach F.Fn work.now first.items }
    requires second { AcceptsEach G.Fn help.now second.items }
    requires end { E.pre end }
    ensures first { (vec_len result.0 ≡ vec_len first)
        × ChangesEach F.Fn work.now first.items result.0.items }
    ensures second { (vec_len result.1 ≡ vec_len second)
        × ChangesEach G.Fn help.now second.items result.1.items }
    ensures end { E.post end result.2 }
{
    let (second, (first, ended)) = join(
        rt,
        move || -> Vec<B>
            requires { IsSync R.row × IsSync G.row × IsSend B.row
                × AcceptsEach G.Fn help.now second.items }
            ensures { (vec_len result ≡ vec_len second)
                × ChangesEach G.Fn help.entry.now second.items result.items }
        { each(rt, second, help) },
        move || -> (Vec<A>, P)
            requires { IsSync R.row × IsSync F.row × IsSend A.row
                × AcceptsEach F.Fn work.now first.items × E.pre end }
            ensures { (vec_len result.0 ≡ vec_len first)
                × ChangesEach F.Fn work.entry.now first.items result.0.items × E.post end result.1 }
        {
            let first = each(rt, first, work);
            (first, end())
        },
    );
    (first, second, ended)
}

/// Has each work in a thread of its own.
fn each<R: Threads + Sync, A: Send + Drop, F: Fn(usize, &mut A) + Sync>(
    rt: &R,
    mut all: Vec<A>,
    work: &F,
) -> Vec<A>
    requires { AcceptsEach F.Fn work.now all.items }
    ensures len { vec_len result ≡ vec_len all }
    ensures each { ChangesEach F.Fn work.now all.items result.items }
{
    let threads = all.len();
    if 0 < threads {
        thread::for_each_mut(rt, all.as_mut_slice(), threads, work);
    }
    all
}
