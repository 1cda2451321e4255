//! Laws of the definitions, each the contract of a function that does nothing.

ghost use Rattle.kin_graph.specs.Tells.{NoChangeLaw, TellsLaw};

/// What a delta tells depends on the two graphs alone, and between a graph and itself it tells nothing.
pub fn delta_laws()
    ensures tells { TellsLaw }
    ensures none { NoChangeLaw }
{}
