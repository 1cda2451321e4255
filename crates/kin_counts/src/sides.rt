//! The ends of follow edges.

ghost use Rattle.std.specs.Prelude.{◌≡◌};
ghost use Rattle.kin_counts.specs.Tallies.{gone_on, now_on};

use kin_graph::{Delta, Pair};

/// Which end of a follow edge a user is.
#[derive(Clone, Copy, Debug, PartialEq, Eq)]
pub(crate) enum Side {
    /// Who is followed.
    In,
    /// Who follows.
    Out,
}

/// The halves on a side that were present and aren't.
pub(crate) fn gone(delta: &Delta, side: Side) -> &[Pair]
    ensures { result.now ≡ gone_on side delta.now }
{
    match side {
        Side::In => delta.gone_in(),
        Side::Out => delta.gone_out(),
    }
}

/// The halves on a side that are present and weren't.
pub(crate) fn now(delta: &Delta, side: Side) -> &[Pair]
    ensures { result.now ≡ now_on side delta.now }
{
    match side {
        Side::In => delta.now_in(),
        Side::Out => delta.now_out(),
    }
}
