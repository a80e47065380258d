//! What the gate decided of a crash.
ghost use Rattle.std.specs.Prelude.{◌≡◌};
ghost use Rattle.soc_raw.specs.Digit.{digit_code};

/// The eighth character of an id from its end: whether a report is due at once.
#[derive(Clone, Copy, Debug, PartialEq, Eq)]
pub enum Digit {
    /// `0`: a report is due.
    Accepted,
    /// `1`: kept, with no report until one is asked for.
    Deferred,
}

impl Digit {
    /// The digit in ASCII.
    pub fn code(self) -> u8
        ensures { result ≡ digit_code self }
    {
        match self {
            Digit::Accepted => b'0',
            Digit::Deferred => b'1',
        }
    }
}
