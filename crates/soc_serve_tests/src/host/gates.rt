//! Threads that run beside each other, told by gates. A gate looks a thousand million times at most, and then goes on.
use super::*;
use crate::expect::{holds, same};
use soc_service::Point;
use std::sync::atomic::{AtomicBool, AtomicUsize, Ordering};

const MOST_LOOKS: u32 = 1_000_000_000;

// A gate that holds the first thread at each of two points until a second one comes there.
#[derive(Drop)]
struct HoldingGate {
    asked: Hold,
    taken: Hold,
}

// Whether one and whether two threads have come, and whether the first waited for nothing.
#[derive(Drop)]
struct Hold {
    came: AtomicUsize,
    missed: AtomicBool,
}

impl Hold {
    fn new() -> Hold {
        Hold {
            came: AtomicUsize::new(0),
            missed: AtomicBool::new(false),
        }
    }

    fn hold(&self) {
        if self.came.fetch_add(1, Ordering::SeqCst) > 0 {
            return;
        }
        for _ in 0..MOST_LOOKS {
            if self.came.load(Ordering::SeqCst) > 1 {
                return;
            }
        }
        self.missed.store(true, Ordering::SeqCst);
    }
}

impl Gate for HoldingGate {
    fn at(&self, point: Point) {
        match point {
            Point::Asked => self.asked.hold(),
            Point::Taken => self.taken.hold(),
            Point::Finished => {}
        }
    }
}

// Expects that each first thread was met by a second.
fn expect_met(rt: &impl Abort, gate: &HoldingGate) {
    holds(rt, !gate.asked.missed.load(Ordering::SeqCst));
    holds(rt, !gate.taken.missed.load(Ordering::SeqCst));
}

#[test]
fn two_collectors_and_two_processors_run_beside_each_other(rt: HostRuntime) -> Result<(), Fail> {
    let gate = HoldingGate {
        asked: Hold::new(),
        taken: Hold::new(),
    };
    let words = [
        "storm",
        "--count",
        "2",
        "--collectors",
        "2",
        "--processors",
        "2",
    ];
    let unasked = listener(rt.alloc(), &[], &[])?;
    let status = run_by(&rt, rt.alloc(), &words, unasked, &gate)?.status;
    same(&rt, status, 0);
    expect_met(&rt, &gate);
    Ok(())
}

// A gate that holds the third asking until a processor has finished a crash.
#[derive(Drop)]
struct LateGate {
    asked: AtomicUsize,
    finished: AtomicBool,
    missed: AtomicBool,
}

impl LateGate {
    fn new() -> LateGate {
        LateGate {
            asked: AtomicUsize::new(0),
            finished: AtomicBool::new(false),
            missed: AtomicBool::new(false),
        }
    }

    fn hold(&self) {
        for _ in 0..MOST_LOOKS {
            if self.finished.load(Ordering::SeqCst) {
                return;
            }
        }
        self.missed.store(true, Ordering::SeqCst);
    }
}

impl Gate for LateGate {
    fn at(&self, point: Point) {
        match point {
            Point::Asked => {
                if self.asked.fetch_add(1, Ordering::SeqCst) == 2 {
                    self.hold();
                }
            }
            Point::Taken => {}
            Point::Finished => self.finished.store(true, Ordering::SeqCst),
        }
    }
}

const REPORT: &[u8] =
    b"GET /api/ProcessedCrash/?crash_id=de1bb258-cbbf-4589-a673-34f800160918 HTTP/1.1\r\nHost: h\r\n\r\n";

const ROW: &[u8] =
    b"{\"date\":\"2016-09-18T00:00:00Z\",\"product\":\"Firefox\",\"signature\":\"EMPTY: no crashing thread identified\",\"success\":false,\"throttle_rule\":\"accept_all\",\"uuid\":\"de1bb258-cbbf-4589-a673-34f800160918\"}";

// Expects a report on the second connection.
fn expect_report(rt: &impl Abort, ran: &Ran) {
    expect_end(rt, ran, 0, b"crashes 1\nreports 1\n");
    holds(rt, ends_with(&ran.listener, 1, ROW));
}

#[test]
fn a_report_is_made_before_the_last_sweep(rt: HostRuntime) -> Result<(), Fail> {
    let gate = LateGate::new();
    let three = listener(rt.alloc(), &[SUBMISSION, REPORT, STOP], &[])?;
    let ran = run_by(&rt, rt.alloc(), ONE, three, &gate)?;
    expect_report(&rt, &ran);
    holds(&rt, !gate.missed.load(Ordering::SeqCst));
    Ok(())
}
