//! The first interval of a list that covers a number.
ghost use Rattle.std.specs.Prelude.{◌≡◌, ℕ, ◌<◌, ◌+◌, ◌^◌, [], length, IfOk, OnOk};
ghost use Rattle.std.specs.List.{position_from};
ghost use Rattle.std.specs.Option.{option_or};
ghost use Rattle.soc_dump.specs.Covering.{covers, first_covering, interval_from, owner_in};

use crate::layer::{LAYER, Layer};
use soc_base::NoMemory;
use std::alloc::Global;
use std::marker::Model;

/// The numbers from the first to the last, both of them among these. Where the last is below the
/// first, there are none.
#[derive(Clone, Copy, Debug, PartialEq, Eq)]
pub struct Interval {
    pub first: u64,
    pub last: u64,
}

impl Interval {
    /// So many numbers from the first on. Those from 2^64 on are left out.
    pub fn from_count(first: u64, count: u64) -> Interval
        ensures value { result ≡ interval_from first count }
    {
        match count.checked_sub(1) {
            Some(more) => Interval {
                first,
                last: first.saturating_add(more),
            },
            None => Interval { first: 1, last: 0 },
        }
    }
}

/// Which interval of a list is the first that covers a number. Intervals may overlap: up to 65,536
/// of them are cut together, once, into pieces that don't. It takes 32 bytes an interval. Contracts
/// see the pieces, and of them only what `owner_in` answers for numbers below 2^64.
#[derive(Debug, Drop)]
pub struct FirstCovering {
    layers: Vec<Layer>,
}

impl Model for FirstCovering {
    ghost use Rattle.std.specs.Prelude.{List};
    ghost use Rattle.soc_dump.specs.Covering.{LayerEntry};

    ghost Value = { List LayerEntry };

    ghost view = { λ table. table.layers.items };
}

impl FirstCovering {
    /// Cuts the intervals of a list into pieces, in the time of a sort. Beside the table it takes
    /// less than 3 MB.
    pub fn new(alloc: Global, intervals: &[Interval]) -> Result<FirstCovering, NoMemory>
        ensures { IfOk result (λ table. (x : ℕ) → x < 2 ^ 64
            → owner_in table x ≡ first_covering intervals.now x) }
    {
        let mut table = FirstCovering::empty(alloc);
        table.extend(alloc, 0, intervals)?;
        Ok(table)
    }

    /// The table of no intervals.
    pub(crate) fn empty(alloc: Global) -> FirstCovering
        ensures { result ≡ [] }
    {
        FirstCovering {
            layers: Vec::new(alloc),
        }
    }

    /// Puts intervals behind those of the table, whose number is the index of their first.
    pub(crate) fn extend(
        &mut self,
        alloc: Global,
        first: usize,
        intervals: &[Interval],
    ) -> Result<(), NoMemory>
        requires { first + length intervals.now < 2 ^ 63 }
        ensures { OnOk result ((x : ℕ) → x < 2 ^ 64 → owner_in self.new x
            ≡ option_or (owner_in self.old x) (position_from (covers x) first intervals.now)) }
    {
        if intervals.len() > LAYER {
            let middle = intervals.len() / 2;
            let (front, back) = intervals.split_at(middle);
            self.extend(alloc, first, front)?;
            return self.extend(alloc, first + middle, back);
        }
        let layer = Layer::new(alloc, first, intervals)?;
        self.layers.push(layer)?;
        Ok(())
    }

    /// The index of the first interval that covers a number. It takes no memory, and of each 32,768
    /// to 65,536 intervals a number of steps that grows with the logarithm of their number.
    pub fn at(&self, x: u64) -> Option<usize>
        ensures { result ≡ owner_in self.now x }
    {
        for layer in self.layers.as_slice() {
            if let Some(index) = layer.at(x) {
                return Some(index);
            }
        }
        None
    }
}
