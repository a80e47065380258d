//! Frames that borrow the symbols' texts.
use soc_frames::Trust;

/// A frame of a stack that borrows the symbols' texts.
#[derive(Clone, Copy, Debug)]
pub struct BorrowedFrame<'a> {
    /// The value of the instruction pointer.
    pub instruction: u64,
    /// How the frame was found.
    pub trust: Trust,
    /// The index of the module that holds the address looked up.
    pub module: Option<usize>,
    /// The address looked up, from the module's base on; from 0 on without a module.
    pub offset: u64,
    /// The function's name, where the module's symbols tell it.
    pub function: Option<&'a str>,
    /// The path of the source file, where the module's symbols tell it.
    pub file: Option<&'a str>,
    /// The line in the source file, from 1.
    pub line: Option<u32>,
}
