//! Closeness from a landmark.

use kin_ids::User;
use kin_rules::{EdgeKind, PushRule};

/// How close to a landmark users are: a follow edge costs 3, and a mention edge 1.
#[derive(Clone, Copy, Debug, PartialEq, Eq)]
pub struct Close {
    pub landmark: User,
}

impl PushRule for Close {
    ghost use Rattle.kin_rules.specs.Instances.{close_rule};
    ghost use Rattle.kin_rules.specs.RuleLaws.{close-laws};

    ghost seen = { λ r. close_rule r.landmark };

    fn landmark(&self) -> User {
        self.landmark
    }

    fn along(&self, kind: EdgeKind, value: u32) -> Option<u32> {
        match kind {
            EdgeKind::Follow => Some(value + 3),
            EdgeKind::Mention => Some(value + 1),
        }
    }

    ghost laws = { λ r. close-laws };
}
