//! What wakes whoever waits at an address.
use crate::alarm::Alarm;
use soc_listen::Waker;

/// Raises an alarm, by which the listener ends.
#[derive(Drop)]
pub struct SocketWaker<'a> {
    alarm: &'a Alarm,
    wakes: u64,
}

impl<'a> SocketWaker<'a> {
    /// It hasn't raised the alarm yet.
    pub fn new(alarm: &'a Alarm) -> SocketWaker<'a> {
        SocketWaker { alarm, wakes: 0 }
    }
}

impl<'a> Waker for SocketWaker<'a> {
    ghost wakes = { λ w. w.wakes };

    fn wake(&mut self) {
        self.alarm.raise();
        self.wakes = self.wakes.saturating_add(1);
    }
}
