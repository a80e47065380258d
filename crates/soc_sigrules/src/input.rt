//! What a signature is made of, and what it is.
use soc_base::{Text, TextList};

/// What a signature is made of.
#[derive(Debug, Drop)]
pub struct SigInput {
    /// Whether the crashing thread was found.
    pub thread_found: bool,
    /// The texts of the crashing thread's frames, the topmost first.
    pub frames: TextList,
    /// The size in bytes of the allocation that failed, as the client tells it.
    pub oom: Option<Text>,
    /// The message with which the program gave up.
    pub abort: Option<Text>,
    /// What a shutdown that hangs says of itself, as JSON.
    pub shutdown: Option<Text>,
    /// The error of a channel between processes.
    pub ipc: Option<Text>,
    /// Whether the browser's process is the one at the channel's other end.
    pub ipc_browser: bool,
    /// Whether the stack overflowed.
    pub overflow: bool,
    /// Whether the program hung.
    pub hang: bool,
    /// Whether a bit may have flipped in memory.
    pub bad_hardware: bool,
}

/// The signature of a crash.
#[derive(Debug, Drop)]
pub struct Signature {
    /// What crashes are grouped by: at most 255 characters.
    pub text: Text,
    /// All frames, as they are: at most 2,000 characters.
    pub proto: Text,
    /// The names of the rules that changed the text, in order.
    pub notes: TextList,
}
