//! One epoch's version.

ghost use Rattle.std.specs.Prelude.{◌≡◌, ◌<◌, ◌≤◌, IfOk, IsSome, length, slice_index_or};
ghost use Rattle.std.specs.VecDeque.{deque_len, deque_capacity};
ghost use Rattle.kin_blocks.specs.Versions.{no_version, placed, reached, spare_for};

use crate::blocks::Frozen;
use crate::snaps::Snap;
use kin_graph::{Delta, PartSnap};
use kin_ids::{Memory, PartId};
use std::alloc::Global;
use std::collections::VecDeque;
use std::marker::Model;

/// The stores of all partitions at the end of an epoch, and what the epoch changed in each.
#[derive(Drop)]
pub(crate) struct Version {
    pub(crate) snap: Snap,
    pub(crate) deltas: Vec<Delta>,
}

impl Model for Version {
    ghost use Rattle.std.specs.Prelude.{length};
    ghost use Rattle.kin_blocks.specs.Versions.{VersionState, IsVersion};

    ghost Value = { VersionState };

    ghost view = { λ v. record { stores = v.snap; deltas = v.deltas.items } };

    ghost invariant = { λ v. IsVersion (length v.snap) (record { stores = v.snap; deltas = v.deltas.items }) };
}

impl Version {
    ghost use Rattle.kin_blocks.specs.Versions.{unchanged, version_put};

    /// These stores, in none of which anything changed. It costs O(n) in the partitions.
    pub(crate) fn unchanged(alloc: Global, snap: Snap) -> Result<Version, Memory>
        ensures { IfOk result (λ v. v ≡ unchanged snap) }
    {
        let parts = snap.parts();
        let mut deltas = Vec::with_capacity(alloc, usize::from(parts))?;
        for _part in 0..parts {
            deltas.push(Delta::new())?;
        }
        Ok(Version { snap, deltas })
    }

    /// Puts another store and delta in the place of a partition's. It takes no memory.
    pub(crate) fn put(&mut self, p: PartId, store: PartSnap, delta: Delta)
        requires there { p.0 < length self.old.stores }
        requires home { (store.part ≡ p.0) × (store.parts ≡ length self.old.stores) }
        ensures put { self.new ≡ version_put self.old p.0 store delta }
    {
        self.snap.put(p, store);
        self.deltas[usize::from(p.0)] = delta;
    }
}

/// One more version for this place, where there is none yet: its stores are those of the last one. There is room for it
/// then. It costs O(n) in the partitions.
pub(crate) fn spare_for(
    alloc: Global,
    epochs: &mut VecDeque<Version>,
    at: usize,
) -> Result<Option<Version>, Memory>
    requires some { 0 < at }
    requires next { at ≤ length epochs.old.items }
    ensures items { epochs.new.items ≡ epochs.old.items }
    ensures spare { IfOk result (λ spare. spare ≡ spare_for epochs.old.items at) }
    ensures room { IfOk result (λ spare. IsSome spare → deque_len epochs.new < deque_capacity epochs.new) }
{
    if at < epochs.len() {
        return Ok(None);
    }
    epochs.reserve(1)?;
    let snap = epochs[at - 1].snap.share()?;
    Ok(Some(Version::unchanged(alloc, snap)?))
}

/// Puts a partition's store and delta in their place, where there may be one more version. It takes no memory.
pub(crate) fn place(
    epochs: &mut VecDeque<Version>,
    spare: Option<Version>,
    at: usize,
    p: PartId,
    frozen: Frozen,
)
    requires room { IsSome spare → deque_len epochs.old < deque_capacity epochs.old }
    requires there { at < length (reached epochs.old.items spare) }
    requires part { p.0 < length (slice_index_or (reached epochs.old.items spare) at no_version).stores }
    requires home { (frozen.snap.part ≡ p.0)
        × (frozen.snap.parts ≡ length (slice_index_or (reached epochs.old.items spare) at no_version).stores) }
    ensures { epochs.new.items ≡ placed (reached epochs.old.items spare) at p.0 frozen.snap frozen.delta }
{
    if let Some(version) = spare {
        epochs.push_back_reserved(version);
    }
    epochs[at].put(p, frozen.snap, frozen.delta);
}
