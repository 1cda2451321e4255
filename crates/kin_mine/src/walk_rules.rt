//! The rules of walks of a miner.

use kin_hops::{Close, Hops};
use kin_ids::User;
use kin_rules::{EdgeKind, PushRule};

/// What walks are measured by.
#[derive(Clone, Copy, Debug, PartialEq, Eq)]
pub(crate) enum Distance {
    Hops,
    Close,
}

/// The rule of a distance from a landmark.
#[derive(Clone, Copy, Debug, PartialEq, Eq)]
pub(crate) struct WalkRule {
    pub(crate) distance: Distance,
    pub(crate) landmark: User,
}

impl PushRule for WalkRule {
    ghost use Rattle.kin_mine.specs.WalkRules.{rule-laws, rule_of};

    ghost seen = { λ r. rule_of r.distance r.landmark };

    fn landmark(&self) -> User {
        self.landmark
    }

    fn along(&self, kind: EdgeKind, value: u32) -> Option<u32> {
        let landmark = self.landmark;
        match self.distance {
            Distance::Hops => Hops { landmark }.along(kind, value),
            Distance::Close => Close { landmark }.along(kind, value),
        }
    }

    ghost laws = { λ r. rule-laws r.distance r.landmark };
}
