//! Laws of the definitions, each the contract of a function that does nothing.

ghost use Rattle.kin_scores.specs.Plans.{BeginLaw};
ghost use Rattle.kin_scores.specs.Scores.{ShownLaw};

/// A plan that is entered stands over the next view. Where nobody is active, a result that shows what is kept has the
/// ranks and the exposures of the graph.
pub fn score_laws()
    ensures begins { BeginLaw }
    ensures shown { ShownLaw }
{}
