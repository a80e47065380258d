//! What a source and a sink tell of themselves.
ghost use Rattle.soc_edge.specs.Told.{Told, untold};

/// What is left to be read, what was written, and how often a call has failed. A pure source leaves out what is
/// written, a pure sink what is left, and an object that tells nothing leaves out both.
pub trait Tells {
    ghost told: { Self → Told } = { λ _. untold };
}

/// An object that is lent tells the same.
impl<T: Tells> Tells for &mut T {
    ghost told = { λ t. T.told t.now };
}
