//! Slices of a list of intervals, each cut into pieces.
ghost use Rattle.std.specs.Prelude.{◌≡◌, ℕ, ◌<◌, ◌≤◌, ◌+◌, ◌^◌, length, IfOk};
ghost use Rattle.std.specs.List.{position_from};
ghost use Rattle.soc_dump.specs.Covering.{covers, layer_owner};

use crate::covering::Interval;
use crate::pieces::{Piece, owner_at, pieces_of};
use soc_base::NoMemory;
use std::alloc::Global;
use std::marker::Model;

/// The most intervals that a layer has.
pub const LAYER: usize = 65_536;

/// The pieces of a slice of a list of intervals, of which the first has an index.
#[derive(Debug, Drop)]
pub struct Layer {
    /// The index of the slice's first interval.
    first: usize,
    /// Their owners are counted from it.
    pieces: Vec<Piece>,
}

impl Model for Layer {
    ghost use Rattle.std.specs.Prelude.{◌<◌, ◌^◌};
    ghost use Rattle.soc_dump.specs.Covering.{LayerEntry};
    ghost use Rattle.soc_dump.specs.inner.Pieces.{IsRising};

    ghost Value = { LayerEntry };

    ghost view = { λ layer. record { first = layer.first; pieces = layer.pieces.items } };

    ghost invariant = { λ layer. (layer.first < 2 ^ 63) × IsRising 0 layer.pieces.items };
}

impl Layer {
    /// Cuts the intervals of a slice into pieces.
    pub fn new(alloc: Global, first: usize, intervals: &[Interval]) -> Result<Layer, NoMemory>
        requires low { first < 2 ^ 63 }
        requires few { length intervals.now ≤ 2 ^ 16 }
        ensures { IfOk result (λ layer. (x : ℕ) → x < 2 ^ 64
            → layer_owner layer x ≡ position_from (covers x) first intervals.now) }
    {
        let pieces = pieces_of(alloc, intervals, 0)?;
        Ok(Layer { first, pieces })
    }

    /// The index of the first interval of the slice that covers a number.
    pub fn at(&self, x: u64) -> Option<usize>
        ensures { result ≡ layer_owner self.now x }
    {
        let owner = owner_at(self.pieces.as_slice(), x)?;
        Some(self.first + owner as usize)
    }
}
