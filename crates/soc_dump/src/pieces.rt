//! Intervals of a list, cut into pieces that don't overlap.
ghost use Rattle.std.specs.Prelude.{◌≡◌, ℕ, ◌<◌, ◌≤◌, ◌+◌, ◌^◌, None, length, IfOk, MatchOption};
ghost use Rattle.std.specs.List.{position_from};
ghost use Rattle.std.specs.List.Sorted.{IsNonDecreasingBy, IsPartitionPoint};
ghost use Rattle.soc_dump.specs.Covering.{covers, owner_from};
ghost use Rattle.soc_dump.specs.inner.Pieces.{IsRising, IsOverlay, LeadsTo, layers_left, leads, piece_list};

use crate::covering::Interval;
use soc_base::NoMemory;
use std::alloc::Global;

/// Which interval is the first that covers, for the numbers from one on up to the next piece's. It
/// takes 16 bytes.
#[derive(Clone, Copy, Debug)]
pub struct Piece {
    pub from: u64,
    /// The interval's index; `None` where none covers.
    pub owner: Option<u32>,
}

const _: () = prove!(size_of::<Piece>() == 16);

/// The pieces that are left of two lists, of which the upper one counts where it has an owner, and
/// the owners of the pieces before them.
#[derive(Clone, Copy, Debug)]
struct Layers<'a> {
    above: Option<u32>,
    upper: &'a [Piece],
    below: Option<u32>,
    lower: &'a [Piece],
}

/// The pieces of one interval.
fn pieces_of_one(alloc: Global, interval: Interval, index: u32) -> Result<Vec<Piece>, NoMemory>
    ensures { IfOk result (λ pieces. pieces.items ≡ piece_list interval index) }
{
    let mut pieces = Vec::with_capacity(alloc, 2)?;
    if interval.first <= interval.last {
        pieces.push(Piece {
            from: interval.first,
            owner: Some(index),
        })?;
        if let Some(from) = interval.last.checked_add(1) {
            pieces.push(Piece { from, owner: None })?;
        }
    }
    Ok(pieces)
}

/// Whether a piece begins no later than all of some sorted others.
fn is_next(piece: Piece, others: &[Piece]) -> bool
    ensures { result ≡ leads piece others.now }
{
    match others.first() {
        Some(other) => piece.from <= other.from,
        None => true,
    }
}

/// The next piece of two layers, and what is left of them.
fn next_piece(layers: Layers<'_>) -> Option<(Piece, Layers<'_>)>
    ensures next { MatchOption result (layers_left layers.entry ≡ 0)
        (λ next. LeadsTo layers.entry next.0 next.1) }
    ensures less { MatchOption result (layers_left layers.entry ≡ 0)
        (λ next. layers_left next.1 < layers_left layers.entry) }
{
    if let Some((piece, upper)) = layers.upper.split_first()
        && is_next(*piece, layers.lower)
    {
        let next = Piece {
            from: piece.from,
            owner: piece.owner.or(layers.below),
        };
        let above = piece.owner;
        return Some((
            next,
            Layers {
                above,
                upper,
                ..layers
            },
        ));
    }
    let (piece, lower) = layers.lower.split_first()?;
    let next = Piece {
        from: piece.from,
        owner: layers.above.or(piece.owner),
    };
    let below = piece.owner;
    Some((
        next,
        Layers {
            below,
            lower,
            ..layers
        },
    ))
}

/// The pieces of two lists of which the upper one counts first.
fn overlay(alloc: Global, upper: &[Piece], lower: &[Piece]) -> Result<Vec<Piece>, NoMemory>
    ensures { IfOk result (λ pieces. IsOverlay None upper.now None lower.now pieces.items) }
{
    let mut pieces = Vec::with_capacity(alloc, upper.len() + lower.len())?;
    let mut layers = Layers {
        above: None,
        upper,
        below: None,
        lower,
    };
    while let Some((piece, rest)) = next_piece(layers) {
        pieces.push(piece)?;
        layers = rest;
    }
    Ok(pieces)
}

/// The pieces of some intervals, of which the first has the index.
pub fn pieces_of(alloc: Global, intervals: &[Interval], index: u32) -> Result<Vec<Piece>, NoMemory>
    requires { index + length intervals.now < 2 ^ 32 }
    ensures rising { IfOk result (λ pieces. IsRising 0 pieces.items) }
    ensures owners { IfOk result (λ pieces. (x : ℕ) → x < 2 ^ 64
        → owner_from None pieces.items x ≡ position_from (covers x) index intervals.now) }
{
    match intervals {
        [] => Ok(Vec::new(alloc)),
        [interval] => pieces_of_one(alloc, *interval, index),
        _ => {
            let middle = intervals.len() / 2;
            let (front, back) = intervals.split_at(middle);
            let upper = pieces_of(alloc, front, index)?;
            let lower = pieces_of(alloc, back, index + middle as u32)?;
            overlay(alloc, upper.as_slice(), lower.as_slice())
        }
    }
}

/// How many pieces begin at a number or before it.
fn count_to(pieces: &[Piece], x: u64) -> usize
    ensures bound { result ≤ length pieces.now }
    ensures point { IsNonDecreasingBy (λ piece. piece.from) pieces.now
        → IsPartitionPoint (λ piece. piece.from ≤ x) (λ piece. x < piece.from) pieces.now result }
{
    pieces.partition_point(|piece| piece.from <= x)
}

/// The owner of a number's piece.
pub fn owner_at(pieces: &[Piece], x: u64) -> Option<u32>
    requires { IsRising 0 pieces.now }
    ensures { result ≡ owner_from None pieces.now x }
{
    let count = count_to(pieces, x);
    if count == 0 {
        return None;
    }
    pieces[count - 1].owner
}
