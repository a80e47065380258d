//! How a session ends.

/// How a session ends.
#[derive(Clone, Copy, Debug, PartialEq, Eq)]
pub enum SessionEnd {
    /// The input ended behind the last message.
    Ended,
    /// The last message asked for it.
    Closed,
    /// The desk has stopped.
    Stopped,
    /// A head was refused, or a message was cut short.
    Refused,
    /// The link failed as a source.
    ReadFault,
    /// The link failed as a sink.
    WriteFault,
    /// The messages answered hold as many bytes as they may.
    TooLong,
    /// An allocation was refused.
    NoMemory,
}
