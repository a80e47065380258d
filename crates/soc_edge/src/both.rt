//! A source and a sink as one.
ghost use Rattle.soc_edge.specs.Told.{joined};

use crate::{Failed, Sink, Source, Tells};

/// Joins a source and a sink, as the two directions of a connection.
#[derive(Drop)]
pub struct Both<S, K> {
    /// What is read.
    pub source: S,
    /// What is written.
    pub sink: K,
}

impl<S: Tells, K: Tells> Tells for Both<S, K> {
    ghost told = { λ b. joined (S.told b.source) (K.told b.sink) };
}

impl<S: Source, K: Tells> Source for Both<S, K> {
    fn read(&mut self, into: &mut [u8]) -> Result<usize, Failed> {
        self.source.read(into)
    }
}

impl<S: Tells, K: Sink> Sink for Both<S, K> {
    fn write(&mut self, bytes: &[u8]) -> Result<usize, Failed> {
        self.sink.write(bytes)
    }
}
