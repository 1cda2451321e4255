//! Rules whose values grow along edges.

use crate::EdgeKind;
use kin_ids::User;

/// A rule whose values grow along edges, from a landmark that has 0.
pub trait PushRule {
    ghost use Rattle.std.specs.Prelude.{◌≡◌, ◌≤◌, ◌^◌, ℕ, Option};
    ghost use Rattle.kin_ids.specs.declared.ids.User.{User};
    ghost use Rattle.kin_rules.specs.declared.kinds.EdgeKind.{EdgeKind};
    ghost use Rattle.kin_rules.specs.Walks.{Rule, IsRule};

    /// What the rule is.
    ghost seen: { Self → Rule };

    /// Whose walks are looked at.
    fn landmark(&self) -> User
        ensures { result ≡ (seen self.now).mark };

    /// The value that an edge offers its end. None where the rule doesn't use edges of the kind.
    fn along(&self, kind: EdgeKind, value: u32) -> Option<u32>
        requires { value ≤ 2 ^ 30 }
        ensures { result ≡ (seen self.now).along kind value };

    ghost laws: { (r : Self) → IsRule (seen r).along (seen r).most };
}

/// How far users are from a landmark.
#[derive(Clone, Copy, Debug, PartialEq, Eq)]
pub(crate) enum Distance {
    /// The least number of follow edges.
    Hops,
    /// The least cost where a follow edge costs 3 and a mention edge 1.
    Close,
}

/// The rule of a distance from a landmark.
#[derive(Clone, Copy, Debug, PartialEq, Eq)]
pub(crate) struct DistanceFrom {
    pub(crate) landmark: User,
    pub(crate) distance: Distance,
}

impl PushRule for DistanceFrom {
    ghost use Rattle.kin_rules.specs.Instances.{distance_rule};
    ghost use Rattle.kin_rules.specs.RuleLaws.{distance-laws};

    ghost seen = { λ r. distance_rule r.distance r.landmark };

    fn landmark(&self) -> User {
        self.landmark
    }

    fn along(&self, kind: EdgeKind, value: u32) -> Option<u32> {
        match (self.distance, kind) {
            (Distance::Hops, EdgeKind::Follow) => Some(value + 1),
            (Distance::Hops, EdgeKind::Mention) => None,
            (Distance::Close, EdgeKind::Follow) => Some(value + 3),
            (Distance::Close, EdgeKind::Mention) => Some(value + 1),
        }
    }

    ghost laws = { λ r. distance-laws r.distance r.landmark };
}
