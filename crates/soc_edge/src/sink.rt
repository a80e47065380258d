//! Where bytes go to.
ghost use Rattle.std.specs.Prelude.{◌<◌, ◌≤◌, [], length, take, IfOk, OnErr};
ghost use Rattle.soc_edge.specs.Told.{Writes, WriteFailed};

use crate::{Failed, Tells};

/// Bytes that go out, as to a standard output or to a connection.
pub trait Sink: Tells {
    /// Appends the first bytes of a piece, at least one where there is one, and answers how many.
    /// After `Failed` nothing was appended. What is left stays, where the sink is a source too.
    fn write(&mut self, bytes: &[u8]) -> Result<usize, Failed>
        ensures count { IfOk result (λ n. n ≤ length bytes.now) }
        ensures some { IfOk result (λ n. 0 < length bytes.now → 0 < n) }
        ensures writes { IfOk result (λ n. Writes (Self.told self.old) (Self.told self.new)
            (take n bytes.now)) }
        ensures untouched { OnErr result (Writes (Self.told self.old) (Self.told self.new) []) }
        ensures cause { OnErr result (WriteFailed (Self.told self.old) (Self.told self.new)) };
}

/// A sink that is lent holds the same bytes and has the same count of faults.
impl<K: Sink> Sink for &mut K {
    fn write(&mut self, bytes: &[u8]) -> Result<usize, Failed> {
        (**self).write(bytes)
    }
}
