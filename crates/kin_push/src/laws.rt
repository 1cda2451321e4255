//! Laws of the definitions, each the contract of a function that does nothing.

ghost use Rattle.kin_push.specs.Begins.{BeginLaw, EmptyLaw, EpochLaw, QuietLaw, ViewLaw};

/// The facts stand of nobody on an empty view, and are kept from an epoch to the next. Where nobody is active the
/// values are the least costs of walks, and those over a view are the graph's.
pub fn push_laws()
    ensures empty { EmptyLaw }
    ensures begins { BeginLaw }
    ensures quiet { QuietLaw }
    ensures view { ViewLaw }
{}

/// What the turns of an epoch read.
pub fn read_laws()
    ensures { EpochLaw }
{}
