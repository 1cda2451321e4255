//! Laws of hubs, the contract of a function that does nothing.

ghost use Rattle.kin_hub.specs.Commits.{MayCommitLaw, FewVerticesLaw};

/// Over feeds within the limits no commit is stopped by the number of mentions, and no snapshot has more than 17
/// vertices a record, which is below 2^27.
pub fn hub_laws()
    ensures commits { MayCommitLaw }
    ensures vertices { FewVerticesLaw }
{}
