//! Where a thread of the service may be held, so that tests can tell threads apart.

/// Where a thread is.
#[derive(Clone, Copy, Debug, PartialEq, Eq)]
pub enum Point {
    /// A desk has asked its command in the hall.
    Asked,
    /// A processor has taken the job of a crash.
    Taken,
    /// A processor has finished a crash.
    Finished,
}

/// A gate that each thread comes by. It may hold a thread for a while.
pub trait Gate {
    /// A thread has come to a point.
    fn at(&self, point: Point);
}

/// A gate that returns at once.
#[derive(Clone, Copy, Debug)]
pub struct OpenGate;

impl Gate for OpenGate {
    fn at(&self, _point: Point) {}
}
