//! A source that gives its bytes in small pieces.
use soc_edge::{Failed, Source, Tells};

/// Gives the bytes of a text, at most `size` of them a read.
#[derive(Drop)]
pub(crate) struct Drip<'a> {
    pub(crate) rest: &'a [u8],
    pub(crate) size: usize,
}

impl<'a> Tells for Drip<'a> {}

impl<'a> Source for Drip<'a> {
    fn read(&mut self, into: &mut [u8]) -> Result<usize, Failed> {
        let count = into.len().min(self.rest.len()).min(self.size);
        into[..count].copy_from_slice(&self.rest[..count]);
        self.rest = &self.rest[count..];
        Ok(count)
    }
}
