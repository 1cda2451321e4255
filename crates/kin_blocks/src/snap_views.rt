//! How a snapshot is read: each user and each tag at its partition.

use crate::snaps::Snap;
use kin_graph::{Halves, Steps, UseList, Users, View};
use kin_ids::{Memory, Tag, User};
use std::collections::BTreeSet;
use std::sync::ledger::Ledger;

impl View for Snap {
    ghost use Rattle.kin_blocks.specs.Snaps.{joined};

    ghost seen = { joined };

    fn users(&self) -> Result<Vec<User>, Memory> {
        let mut users = BTreeSet::new(self.alloc);
        for store in &self.stores {
            // For the proof: it tells that the store has nothing of other partitions.
            let _ = store.part();
            users.extend(store.users()?)?;
        }
        let users = users.into_iter().collect(self.alloc)?;
        Ok(users)
    }

    fn tags(&self) -> Result<Vec<Tag>, Memory> {
        let mut tags = BTreeSet::new(self.alloc);
        for store in &self.stores {
            // For the proof: it tells that the store has nothing of other partitions.
            let _ = store.part();
            tags.extend(store.tags()?)?;
        }
        let tags = tags.into_iter().collect(self.alloc)?;
        Ok(tags)
    }

    fn is_vertex(&self, u: User) -> bool {
        self.of_user(u).is_vertex(u)
    }

    fn said(&self, u: User) -> u64 {
        self.of_user(u).said(u)
    }

    fn uses(&self, u: User) -> &UseList {
        self.of_user(u).uses(u)
    }

    fn tag_users(&self, t: Tag) -> u64 {
        self.of_tag(t).tag_users(t)
    }

    fn out<'a, L: Ledger>(&'a self, u: User, steps: &mut Steps<L>) -> &'a Halves {
        self.of_user(u).out(u, steps)
    }

    fn inn<'a, L: Ledger>(&'a self, u: User, steps: &mut Steps<L>) -> &'a Halves {
        self.of_user(u).inn(u, steps)
    }

    fn mentions<'a, L: Ledger>(&'a self, u: User, steps: &mut Steps<L>) -> &'a Users {
        self.of_user(u).mentions(u, steps)
    }

    fn mentioners<'a, L: Ledger>(&'a self, u: User, steps: &mut Steps<L>) -> &'a Users {
        self.of_user(u).mentioners(u, steps)
    }
}
