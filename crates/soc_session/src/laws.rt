//! Laws of the definitions.
ghost use Rattle.soc_session.specs.Laws.{IsOnePlan};

/// Given its draws, a message comes to one plan. Only submissions draw.
pub fn plan_is_one()
    ensures { IsOnePlan }
{}
