//! Laws of snapshots, the contract of a function that does nothing.

ghost use Rattle.kin_blocks.specs.Wholes.{JoinLaw, HalvesLaw};

/// The parts of a graph on all partitions are the whole graph together, and no edge has one half only.
pub fn snap_laws()
    ensures whole { JoinLaw }
    ensures halves { HalvesLaw }
{}
