//! Laws of worlds, each the contract of a function that does nothing. They hold of every world and every list of events for
//! which it stands.

ghost use Rattle.kin_world.specs.Laws.{AgreementLaw, AdriftLaw, LeadLaw, MomentLaw};

/// What the hub's positions are in the history; that no delivery finds a partition without a place for its piece; that the
/// stores of all partitions at a kept epoch are one graph, that of the whole transactions within the epoch's vector; and
/// that the epoch's deltas lead to it from the graph of the epoch before.
pub fn world_laws()
    ensures agreement { AgreementLaw }
    ensures adrift { AdriftLaw }
    ensures moments { MomentLaw }
    ensures leads { LeadLaw }
{}
