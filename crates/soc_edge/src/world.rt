//! All that lies outside, as one.
ghost use Rattle.soc_edge.specs.World.{Outside, outside};

use crate::{Clock, CountsFaults, Disk, Draws, Tells, Tree};

/// All that lies outside of a run.
#[derive(Drop)]
pub struct World<T, X, D, C, W, P> {
    /// The files.
    pub tree: T,
    /// The input and the output.
    pub streams: X,
    /// What the journal is on.
    pub disk: D,
    pub clock: C,
    pub draws: W,
    /// What makes patterns.
    pub maker: P,
}

/// What all that lies outside tells of itself.
pub trait TellsAll {
    ghost told: { Self → Outside };
}

impl<T: Tree, X: Tells, D: Disk, C: Clock, W: Draws, P: CountsFaults> TellsAll
    for World<T, X, D, C, W, P> {
    ghost told = { λ w. outside (T.told w.tree) (P.faults w.maker) (X.told w.streams)
        (D.state w.disk) (C.told w.clock) (W.told w.draws) };
}
