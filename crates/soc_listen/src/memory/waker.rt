//! A waker in memory.
use crate::Waker;

/// Wakes nobody, since nobody waits for a listener in memory.
#[derive(Drop)]
pub struct MemWaker {
    wakes: u64,
}

impl MemWaker {
    /// It wasn't asked yet.
    pub(crate) fn new() -> MemWaker {
        MemWaker { wakes: 0 }
    }
}

impl Waker for MemWaker {
    ghost wakes = { λ w. w.wakes };

    fn wake(&mut self) {
        self.wakes = self.wakes.saturating_add(1);
    }
}
