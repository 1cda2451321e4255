//! Costs, each of a user.

ghost use Rattle.std.specs.Prelude.{◌≡◌, ℕ, [], Some, None, IfOk, OnOk, OnErr, if◌then◌else◌};
ghost use Rattle.kin_ids.specs.declared.ids.User.{User};
ghost use Rattle.kin_ids.specs.Users.{same_user};
ghost use Rattle.kin_rules.specs.UserCosts.{cost_of};

use kin_ids::{Memory, User};
use std::alloc::Global;
use std::collections::BTreeMap;
use std::marker::Model;

/// Costs of some users, seen as the users with their costs, ascending by user.
#[derive(Drop)]
pub struct Costs {
    costs: BTreeMap<User, u32>,
}

impl Model for Costs {
    ghost use Rattle.std.specs.Prelude.{ℕ, List};
    ghost use Rattle.kin_ids.specs.declared.ids.User.{User};

    ghost Value = { List (User × ℕ) };

    ghost view = { λ a. a.costs.entries };
}

impl Costs {
    /// No costs. It takes no memory.
    pub fn new(alloc: Global) -> Costs
        ensures { result ≡ [] }
    {
        Costs {
            costs: BTreeMap::new(alloc),
        }
    }

    /// The user's cost. O(log n).
    pub fn of(&self, u: User) -> Option<u32>
        ensures { result ≡ cost_of self.now u }
    {
        self.costs.get(&u).copied()
    }

    /// The user has this cost, and all others theirs. O(log n).
    pub fn set(&mut self, u: User, value: u32) -> Result<(), Memory>
        ensures ok { OnOk result ((x : User) →
            cost_of self.new x ≡ (if same_user u x then Some value else cost_of self.old x)) }
        ensures err { OnErr result (self.new ≡ self.old) }
    {
        self.costs.insert(u, value)?;
        Ok(())
    }

    /// The user has no cost, and all others theirs. It takes no memory. O(log n).
    pub fn remove(&mut self, u: User)
        ensures { (x : User) → cost_of self.new x ≡ (if same_user u x then None else cost_of self.old x) }
    {
        self.costs.remove(&u);
    }
}
