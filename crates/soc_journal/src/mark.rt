//! What stands of an entry before its body.

/// An entry that an opening has found. Its body stands behind its first six bytes.
#[derive(Clone, Copy, Debug, PartialEq, Eq)]
pub struct Mark {
    /// Where the entry's gate stands.
    pub place: u64,
    /// One of the kinds that the journal's version has.
    pub kind: u8,
    /// How many bytes the body has, at most 67,108,864.
    pub length: u32,
}
