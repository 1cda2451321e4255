//! Numbers with what they are of.

ghost use Rattle.std.specs.Prelude.{◌≡◌, Some};
ghost use Rattle.std.proofs.Common.{rules};
ghost use Rattle.std.specs.Cmp.{partial_order_from_own_ties};
ghost use Rattle.std.specs.Cmp.Rules.{comparing};

use kin_ids::{Tag, User};
use std::cmp::Ordering;

/// A user with its number under some rule. Greater numbers come first, and ties by the lesser user.
#[derive(Clone, Copy, Debug, PartialEq, Eq)]
pub struct UserNumber {
    pub user: User,
    pub number: u64,
}

impl PartialOrd for UserNumber {
    ghost use Rattle.kin_rules.specs.Top.{user_order};

    ghost partial_cmp = { λ a b. Some (user_order a b) };

    ghost laws = { partial_order_from_own_ties (Prim.search (comparing, rules)) (Prim.search (comparing, rules)) };

    fn partial_cmp(&self, other: &Self) -> Option<Ordering> {
        Some(self.cmp(other))
    }
}

impl Ord for UserNumber {
    ghost use Rattle.kin_rules.specs.Top.{user_order};

    ghost cmp = { λ a b. user_order a b };

    ghost total = { Prim.search (comparing, rules) };

    ghost matches_partial_cmp = { Prim.search (comparing, rules) };

    ghost matches_eq = { Prim.search (comparing, rules) };

    fn cmp(&self, other: &Self) -> Ordering {
        other
            .number
            .cmp(&self.number)
            .then(self.user.cmp(&other.user))
    }
}

/// A tag with the number of its users. Greater numbers come first, and ties by the lesser tag.
#[derive(Clone, Copy, Debug, PartialEq, Eq)]
pub struct TagNumber {
    pub tag: Tag,
    pub number: u64,
}

impl PartialOrd for TagNumber {
    ghost use Rattle.kin_rules.specs.Top.{tag_order};

    ghost partial_cmp = { λ a b. Some (tag_order a b) };

    ghost laws = { partial_order_from_own_ties (Prim.search (comparing, rules)) (Prim.search (comparing, rules)) };

    fn partial_cmp(&self, other: &Self) -> Option<Ordering> {
        Some(self.cmp(other))
    }
}

impl Ord for TagNumber {
    ghost use Rattle.kin_rules.specs.Top.{tag_order};

    ghost cmp = { λ a b. tag_order a b };

    ghost total = { Prim.search (comparing, rules) };

    ghost matches_partial_cmp = { Prim.search (comparing, rules) };

    ghost matches_eq = { Prim.search (comparing, rules) };

    fn cmp(&self, other: &Self) -> Ordering {
        other
            .number
            .cmp(&self.number)
            .then(self.tag.cmp(&other.tag))
    }
}

/// How many users of a tag have the exposure `k`.
#[derive(Clone, Copy, Debug, PartialEq, Eq)]
pub struct KCount {
    pub k: u64,
    pub users: u64,
}

/// The rules that give each user a number.
#[derive(Clone, Copy, Debug, PartialEq, Eq)]
pub enum Num {
    /// How many follow it.
    In,
    /// How many it follows.
    Out,
    /// How many items of tweets mention it.
    Said,
    Rank,
}
