//! Laws of the definitions, each the contract of a function that does nothing.

ghost use Rattle.kin_pull.specs.Begins.{BeginLaw, EmptyLaw, LayersLaw, ReadsLaw, TouchedLaw};
ghost use Rattle.kin_pull.specs.Keeping.{IdleLaw, RestLaw};
ghost use Rattle.kin_pull.specs.Settles.{PassLaw};
ghost use Rattle.kin_pull.specs.States.{QuietLaw, ViewLaw};
ghost use Rattle.kin_pull.specs.Turns.{TurnLaw};

/// What keeps the facts over functions: where nobody is active every layer is the rule's, a layer differs from that of
/// its inputs only where somebody is active, and turns and passes keep them so.
pub fn fact_laws<V>()
    ensures idle { IdleLaw V }
    ensures rest { RestLaw V }
    ensures turn { TurnLaw V }
    ensures pass { PassLaw V }
{}

/// The facts stand of nobody on an empty view, and are kept from an epoch to the next. Where nobody is active the
/// layers are the rule's, and those over a view are the graph's. What a settle reads right after a begin is what
/// differs from the epoch before, once for all layers, which is at most what each layer would read for itself.
pub fn pull_laws<V>()
    ensures empty { EmptyLaw V }
    ensures begins { BeginLaw V }
    ensures quiet { QuietLaw V }
    ensures view { ViewLaw V }
    ensures reads { ReadsLaw V }
    ensures layers { LayersLaw V }
{}

/// Whoever deltas tell of is a vertex of the view to which they lead.
pub fn touched_laws()
    ensures { TouchedLaw }
{}
