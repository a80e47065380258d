//! A link that hands out one message a read, and notes a read that comes too early.
use soc_edge::{Failed, Sink, Source, Tells};

/// A link over messages, each with its reply.
#[derive(Drop)]
pub(crate) struct Watched<'a> {
    messages: &'a [Vec<u8>],
    replies: &'a [Vec<u8>],
    /// How many messages were handed out.
    pub(crate) given: usize,
    /// How many bytes their replies have.
    pub(crate) due: usize,
    /// How many bytes were written.
    pub(crate) written: usize,
    /// Whether a read came before a reply was written whole.
    pub(crate) early: bool,
}

impl<'a> Watched<'a> {
    pub(crate) fn new(messages: &'a [Vec<u8>], replies: &'a [Vec<u8>]) -> Watched<'a> {
        Watched {
            messages,
            replies,
            given: 0,
            due: 0,
            written: 0,
            early: false,
        }
    }
}

impl<'a> Tells for Watched<'a> {}

impl<'a> Source for Watched<'a> {
    fn read(&mut self, into: &mut [u8]) -> Result<usize, Failed> {
        if self.written < self.due {
            self.early = true;
        }
        let (Some(message), Some(reply)) = (
            self.messages.get(self.given),
            self.replies.get(self.given),
        ) else {
            return Ok(0);
        };
        let message = message.as_slice();
        let n = message.len().min(into.len());
        into[..n].copy_from_slice(&message[..n]);
        self.given = self.given.saturating_add(1);
        self.due = self.due.saturating_add(reply.len());
        Ok(n)
    }
}

impl<'a> Sink for Watched<'a> {
    fn write(&mut self, bytes: &[u8]) -> Result<usize, Failed> {
        self.written = self.written.saturating_add(bytes.len());
        Ok(bytes.len())
    }
}
