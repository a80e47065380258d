//! What a look-up finds.

/// What a symbol file says of an offset. A public symbol gives a function alone.
#[derive(Clone, Copy, Debug, PartialEq, Eq)]
pub struct Found<'a> {
    /// The name of the function, or of the public symbol.
    pub function: Option<&'a str>,
    /// The name of the source file.
    pub file: Option<&'a str>,
    /// The line's number in the source file.
    pub line: Option<u32>,
}
