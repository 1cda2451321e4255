//! How the store of one partition is read.

use crate::part_graphs::PartGraph;
use crate::{Steps, View};
use kin_ids::{Memory, Tag, User};
use kin_store::{Halves, PartSnap, UseList, Users};
use std::sync::ledger::Ledger;

/// Each call takes O(log n) for n users or tags of the store, but for those that list them all.
impl View for PartSnap {
    ghost use Rattle.kin_store.specs.State.{view_of};

    ghost seen = { view_of };

    fn users(&self) -> Result<Vec<User>, Memory> {
        self.vertices()
    }

    fn tags(&self) -> Result<Vec<Tag>, Memory> {
        PartSnap::tags(self)
    }

    fn is_vertex(&self, u: User) -> bool {
        self.row(u).is_vertex()
    }

    fn said(&self, u: User) -> u64 {
        self.row(u).said()
    }

    fn uses(&self, u: User) -> &UseList {
        self.row(u).uses()
    }

    fn tag_users(&self, t: Tag) -> u64 {
        self.users_of(t).len() as u64
    }

    fn out<'a, L: Ledger>(&'a self, u: User, steps: &mut Steps<L>) -> &'a Halves {
        let halves = self.row(u).out();
        steps.tick_by(1);
        steps.tick_by(halves.len() as u64);
        halves
    }

    fn inn<'a, L: Ledger>(&'a self, u: User, steps: &mut Steps<L>) -> &'a Halves {
        let halves = self.row(u).inn();
        steps.tick_by(1);
        steps.tick_by(halves.len() as u64);
        halves
    }

    fn mentions<'a, L: Ledger>(&'a self, u: User, steps: &mut Steps<L>) -> &'a Users {
        let users = self.row(u).mentions();
        steps.tick_by(1);
        steps.tick_by(users.len() as u64);
        users
    }

    fn mentioners<'a, L: Ledger>(&'a self, u: User, steps: &mut Steps<L>) -> &'a Users {
        let users = self.row(u).mentioners();
        steps.tick_by(1);
        steps.tick_by(users.len() as u64);
        users
    }
}

/// As its store is read.
impl View for PartGraph {
    ghost use Rattle.kin_store.specs.State.{view_of};

    ghost seen = { view_of };

    fn users(&self) -> Result<Vec<User>, Memory> {
        self.snap().users()
    }

    fn tags(&self) -> Result<Vec<Tag>, Memory> {
        View::tags(self.snap())
    }

    fn is_vertex(&self, u: User) -> bool {
        self.snap().is_vertex(u)
    }

    fn said(&self, u: User) -> u64 {
        self.snap().said(u)
    }

    fn uses(&self, u: User) -> &UseList {
        self.snap().uses(u)
    }

    fn tag_users(&self, t: Tag) -> u64 {
        self.snap().tag_users(t)
    }

    fn out<'a, L: Ledger>(&'a self, u: User, steps: &mut Steps<L>) -> &'a Halves {
        self.snap().out(u, steps)
    }

    fn inn<'a, L: Ledger>(&'a self, u: User, steps: &mut Steps<L>) -> &'a Halves {
        self.snap().inn(u, steps)
    }

    fn mentions<'a, L: Ledger>(&'a self, u: User, steps: &mut Steps<L>) -> &'a Users {
        self.snap().mentions(u, steps)
    }

    fn mentioners<'a, L: Ledger>(&'a self, u: User, steps: &mut Steps<L>) -> &'a Users {
        self.snap().mentioners(u, steps)
    }
}
