//! Where bytes come from.
ghost use Rattle.std.specs.Prelude.{◌≡◌, ◌<◌, ◌≤◌, [], length, take, IfOk, OnErr};
ghost use Rattle.std.specs.Io.KnownBytes.{IsAtEnd};
ghost use Rattle.soc_edge.specs.Told.{Reads, ReadFailed};

use crate::{Failed, Tells};

/// Bytes that come in, as of a standard input or of a connection.
pub trait Source: Tells {
    /// Moves some of the bytes that are left, from the first on, to the front of `into`, and answers how many.
    /// What stands behind them in `into` may change too. `Ok(0)` at a buffer with room means the end of input.
    /// After `Failed` nothing was moved. What was written stays, where the source is a sink too.
    fn read(&mut self, into: &mut [u8]) -> Result<usize, Failed>
        ensures count { IfOk result (λ n. n ≤ length into.new) }
        ensures reads { IfOk result (λ n. Reads (Self.told self.old) (Self.told self.new)
            (take n into.new)) }
        ensures end { IfOk result (λ n. n ≡ 0 → 0 < length into.new
            → IsAtEnd (Self.told self.new).left) }
        ensures unmoved { OnErr result (Reads (Self.told self.old) (Self.told self.new) []) }
        ensures cause { OnErr result (ReadFailed (Self.told self.old) (Self.told self.new)) };
}

/// A source that is lent has the same bytes left and the same count of faults.
impl<S: Source> Source for &mut S {
    fn read(&mut self, into: &mut [u8]) -> Result<usize, Failed> {
        (**self).read(into)
    }
}
