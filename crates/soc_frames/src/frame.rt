//! One frame of a stack.
use soc_base::Text;

const RUST_END: &[u8] = b".rs";

/// How a frame was found, the most reliable way first.
#[derive(Clone, Copy, PartialEq, Eq, Debug)]
pub enum Trust {
    /// By the context of the thread: the first frame.
    Context,
    /// By call frame information of a symbol file.
    Cfi,
    /// By the frame pointer.
    FramePointer,
    /// By a word of the stack that looks like a return address.
    Scan,
}

/// One frame of a stack.
#[derive(Debug, Drop)]
pub struct Frame {
    /// The value of the instruction pointer.
    pub instruction: u64,
    /// How the frame was found.
    pub trust: Trust,
    /// The base name of the module that holds the address looked up.
    pub module: Option<Text>,
    /// The address looked up, from the module's base on; from 0 on without a module. It is the instruction pointer's
    /// value in the first frame, and one less in the others.
    pub offset: u64,
    /// The function's name, where the module's symbols tell it.
    pub function: Option<Text>,
    /// The path of the source file, where the module's symbols tell it.
    pub file: Option<Text>,
    /// The line in the source file, from 1.
    pub line: Option<u32>,
}

impl Frame {
    ghost use Rattle.std.specs.Prelude.{◌≡◌};
    ghost use Rattle.soc_frames.specs.Frames.{is_rust};

    /// Whether its function is one of Rust: the source file ends in `.rs`.
    pub(crate) fn is_rust(&self) -> bool
        ensures { result ≡ is_rust self.now }
    {
        match &self.file {
            Some(file) => file.as_str().as_bytes().ends_with(RUST_END),
            None => false,
        }
    }
}
