//! One connection.
ghost use Rattle.std.specs.Prelude.{◌≡◌, ℕ};
ghost use Rattle.soc_edge.specs.Calls.{one_more};

/// Wakes whoever waits at a listener.
pub trait Waker {
    /// How often it was asked to.
    ghost wakes: { Self → ℕ };

    /// Wakes whoever waits, by the listener's end or by one more connection. That it does so is not promised.
    fn wake(&mut self)
        ensures { wakes self.new ≡ one_more (wakes self.old) };
}

/// A connection: what is read and written, and what wakes whoever waits at the listener that it came from.
#[derive(Drop)]
pub struct Conn<X, W> {
    pub link: X,
    pub waker: W,
}
