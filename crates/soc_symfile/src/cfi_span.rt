//! The call frame information of an offset.
ghost use Rattle.std.specs.Prelude.{◌≡◌, ◌<◌, Some, length, slice_get};
ghost use Rattle.soc_symfile.specs.Line.{LabelEntry};

use crate::entries::Label;

/// The INIT record that covers an offset, with its deltas in the order of the file. Contracts see
/// it by `span_of`: the INIT's rules, and the address and rules of each delta.
#[derive(Clone, Copy, Debug)]
pub struct CfiSpan<'a> {
    pub(crate) init: &'a str,
    pub(crate) deltas: &'a [Label<'a>],
}

impl<'a> CfiSpan<'a> {
    ghost use Rattle.soc_symfile.specs.Views.{span_of};

    /// The rules of the INIT.
    pub fn init(&self) -> &'a str
        ensures { result.now ≡ (span_of self.now).init }
    {
        self.init
    }

    /// How many deltas the INIT has.
    pub fn deltas(&self) -> usize
        ensures { result ≡ length (span_of self.now).deltas }
    {
        self.deltas.len()
    }

    /// A delta: the offset from which on it applies, and its rules. The first one is 0.
    pub fn delta(&self, i: usize) -> (u64, &'a str)
        requires { i < length (span_of self.now).deltas }
        ensures { slice_get (span_of self.now).deltas i
            ≡ Some (record { address = result.0; text = result.1.now }) }
    {
        let delta = &self.deltas[i];
        (delta.address, delta.text)
    }
}
