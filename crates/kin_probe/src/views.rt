//! A view that counts how often it is asked for edges.

use kin_blocks::Snap;
use kin_graph::{Halves, Steps, UseList, Users, View};
use kin_ids::{Memory, Tag, User};
use std::sync::atomic::{AtomicU64, Ordering};
use std::sync::ledger::Ledger;

/// A snapshot, and how often edges were asked for, on either side or of either kind.
#[derive(Drop)]
pub struct CountedView<'a> {
    pub snap: &'a Snap,
    pub calls: &'a AtomicU64,
}

impl View for CountedView<'_> {
    ghost use Rattle.kin_blocks.specs.Snaps.{joined};

    ghost seen = { λ v. joined v.snap.now };

    fn users(&self) -> Result<Vec<User>, Memory> {
        self.snap.users()
    }

    fn tags(&self) -> Result<Vec<Tag>, Memory> {
        self.snap.tags()
    }

    fn is_vertex(&self, u: User) -> bool {
        self.snap.is_vertex(u)
    }

    fn said(&self, u: User) -> u64 {
        self.snap.said(u)
    }

    fn uses(&self, u: User) -> &UseList {
        self.snap.uses(u)
    }

    fn tag_users(&self, t: Tag) -> u64 {
        self.snap.tag_users(t)
    }

    fn out<'a, L: Ledger>(&'a self, u: User, steps: &mut Steps<L>) -> &'a Halves {
        self.calls.fetch_add(1, Ordering::SeqCst);
        self.snap.out(u, steps)
    }

    fn inn<'a, L: Ledger>(&'a self, u: User, steps: &mut Steps<L>) -> &'a Halves {
        self.calls.fetch_add(1, Ordering::SeqCst);
        self.snap.inn(u, steps)
    }

    fn mentions<'a, L: Ledger>(&'a self, u: User, steps: &mut Steps<L>) -> &'a Users {
        self.calls.fetch_add(1, Ordering::SeqCst);
        self.snap.mentions(u, steps)
    }

    fn mentioners<'a, L: Ledger>(&'a self, u: User, steps: &mut Steps<L>) -> &'a Users {
        self.calls.fetch_add(1, Ordering::SeqCst);
        self.snap.mentioners(u, steps)
    }
}
