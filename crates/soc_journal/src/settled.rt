//! How a doubt ends.

/// What became of the entries whose append had failed.
#[derive(Clone, Copy, Debug, PartialEq, Eq)]
pub enum Settled {
    /// There was no doubt.
    Clean,
    /// All of them are in the journal, the first at this place.
    Kept { place: u64 },
    /// None of them is, and none ever will be.
    Dropped,
}
