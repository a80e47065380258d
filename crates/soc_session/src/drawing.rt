//! What is drawn for a submission.
ghost use Rattle.std.specs.Prelude.{[], ◌∷◌};
ghost use Rattle.soc_edge.specs.Ahead.{outlook};
ghost use Rattle.soc_session.specs.Plan.{IsDrawn};
ghost use Rattle.soc_session.specs.inner.Plans.{HandsDrawn, drawn_of};

use soc_edge::{Clock, Draws};

/// What a well-formed submission takes: a moment, then a throttle draw, then an id draw.
#[derive(Clone, Copy)]
pub(crate) struct Drawing {
    pub(crate) moment: u64,
    pub(crate) throttle: u64,
    pub(crate) id: [u8; 16],
}

/// Takes a moment, a throttle draw and an id draw, in this order.
pub(crate) fn draw<C: Clock, W: Draws>(clock: &mut C, draws: &mut W) -> Drawing
    ensures hands { HandsDrawn (outlook (C.told clock.old) (W.told draws.old))
        (outlook (C.told clock.new) (W.told draws.new)) (drawn_of result ∷ []) }
    ensures range { IsDrawn (drawn_of result) }
{
    let moment = clock.now();
    let throttle = draws.throttle();
    let id = draws.id();
    Drawing {
        moment,
        throttle,
        id,
    }
}
