//! Hops from a landmark.

use kin_ids::User;
use kin_rules::{EdgeKind, PushRule};

/// How many follow edges away from a landmark users are: each counts one, and mention edges aren't used.
#[derive(Clone, Copy, Debug, PartialEq, Eq)]
pub struct Hops {
    pub landmark: User,
}

impl PushRule for Hops {
    ghost use Rattle.kin_rules.specs.Instances.{hops_rule};
    ghost use Rattle.kin_rules.specs.RuleLaws.{hops-laws};

    ghost seen = { λ r. hops_rule r.landmark };

    fn landmark(&self) -> User {
        self.landmark
    }

    fn along(&self, kind: EdgeKind, value: u32) -> Option<u32> {
        match kind {
            EdgeKind::Follow => Some(value + 1),
            EdgeKind::Mention => None,
        }
    }

    ghost laws = { λ r. hops-laws };
}
