//! Laws of the definitions, each the contract of a function that does nothing.

ghost use Rattle.kin_counts.specs.Counts.{CountLaw};

/// What is counted of a view is what the rules count on its graph.
pub fn count_laws()
    ensures { CountLaw }
{}
