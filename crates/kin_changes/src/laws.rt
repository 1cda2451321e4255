//! Laws of the definitions, each the contract of a function that does nothing.

ghost use Rattle.kin_changes.specs.Told.{CountsLaw, EdgesLaw, VerticesLaw};
ghost use Rattle.kin_changes.specs.Views.{LedLaw, MentionersLaw, WholeLaw};

/// Views of sound graphs in which whoever is mentioned has a mentioner are whole, as those of all records are, and
/// deltas that tell what differs on each partition lead from one to the next.
pub fn led_laws()
    ensures mentioners { MentionersLaw }
    ensures whole { WholeLaw }
    ensures led { LedLaw }
{}

/// What deltas tell of edges, of vertices and tags in use, and of numbers.
pub fn told_laws()
    ensures edges { EdgesLaw }
    ensures vertices { VerticesLaw }
    ensures counts { CountsLaw }
{}
