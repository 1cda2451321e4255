//! The stores of all partitions at one moment.

ghost use Rattle.std.specs.Prelude.{◌≡◌, ◌<◌, IfOk, length, slice_set};

use kin_graph::PartSnap;
use kin_ids::{Memory, PartId, Tag, User, part_of_tag, part_of_user};
use std::alloc::Global;
use std::marker::Model;

/// The graph at the end of an epoch: one store of each partition, in order. It never changes, and is read through
/// `View`.
#[derive(Drop)]
pub struct Snap {
    pub(crate) alloc: Global,
    pub(crate) stores: Vec<PartSnap>,
}

impl Model for Snap {
    ghost use Rattle.std.specs.Prelude.{List};
    ghost use Rattle.kin_graph.specs.State.{PartState};
    ghost use Rattle.kin_blocks.specs.Snaps.{IsSnap};

    ghost Value = { List PartState };

    ghost view = { λ s. s.stores.items };

    ghost invariant = { λ s. IsSnap s.stores.items };
}

impl Snap {
    ghost use Rattle.kin_ids.specs.Parting.{user_part, tag_part};
    ghost use Rattle.kin_blocks.specs.Snaps.{IsSnap, state_at, empty_stores};

    /// An empty store of each partition. It costs O(n) in the partitions.
    pub(crate) fn empty(alloc: Global, parts: u16) -> Result<Snap, Memory>
        requires { 0 < parts }
        ensures { IfOk result (λ s. s ≡ empty_stores parts) }
    {
        let mut stores = Vec::with_capacity(alloc, usize::from(parts))?;
        for p in 0..parts {
            stores.push(PartSnap::new(alloc, PartId(p), parts)?)?;
        }
        Ok(Snap { alloc, stores })
    }

    /// The stores of all partitions in order, together one graph. It costs O(1).
    pub fn join(alloc: Global, parts: Vec<PartSnap>) -> Snap
        requires { IsSnap parts.items }
        ensures { result ≡ parts.items }
    {
        Snap {
            alloc,
            stores: parts,
        }
    }

    /// How many partitions there are.
    pub(crate) fn parts(&self) -> u16
        ensures parts { result ≡ length self.now }
        ensures snap { IsSnap self.now }
    {
        self.stores.len() as u16
    }

    /// The store of a partition.
    pub(crate) fn store(&self, p: PartId) -> &PartSnap
        requires { p.0 < length self.now }
        ensures store { result.now ≡ state_at self.now p.0 }
        ensures snap { IsSnap self.now }
    {
        &self.stores[usize::from(p.0)]
    }

    /// The store of a user's partition.
    pub(crate) fn of_user(&self, u: User) -> &PartSnap
        ensures { result.now ≡ state_at self.now (user_part (length self.now) u) }
    {
        self.store(part_of_user(u, self.stores.len() as u16))
    }

    /// The store of a tag's partition.
    pub(crate) fn of_tag(&self, t: Tag) -> &PartSnap
        ensures { result.now ≡ state_at self.now (tag_part (length self.now) t) }
    {
        self.store(part_of_tag(t, self.stores.len() as u16))
    }

    /// Puts another store in the place of a partition's. It takes no memory.
    pub(crate) fn put(&mut self, p: PartId, store: PartSnap)
        requires there { p.0 < length self.old }
        requires home { (store.part ≡ p.0) × (store.parts ≡ length self.old) }
        ensures put { self.new ≡ slice_set self.old p.0 store }
        ensures snap { IsSnap self.new }
    {
        self.stores[usize::from(p.0)] = store;
    }

    /// An equal one, which shares the stores. It costs O(n) in the partitions.
    pub fn share(&self) -> Result<Snap, Memory>
        ensures { IfOk result (λ s. s ≡ self.now) }
    {
        let mut stores = Vec::with_capacity(self.alloc, self.stores.len())?;
        for store in &self.stores {
            stores.push(store.share()?)?;
        }
        Ok(Snap {
            alloc: self.alloc,
            stores,
        })
    }
}
