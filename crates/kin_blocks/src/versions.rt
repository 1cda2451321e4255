//! The versions of the epochs that are kept.

ghost use Rattle.std.specs.Prelude.{◌≡◌, ◌<◌, ◌≤◌, ◌+◌, ◌↔◌, ℕ, IfOk, IfSome, IsSome, OnOk, OnErr, length};
ghost use Rattle.kin_blocks.specs.Versions.{first_writers};

use crate::blocks::Blocks;
use crate::epochs::{Version, place, spare_for};
use crate::runs::Run;
use crate::snaps::Snap;
use kin_graph::Delta;
use kin_ids::{Epoch, Memory, PartId};
use std::alloc::Global;
use std::collections::VecDeque;
use std::marker::Model;

/// A snapshot of each epoch from the first kept one on, with what the epoch changed, and each partition's store that is
/// written.
#[derive(Drop)]
pub struct Versions {
    alloc: Global,
    first: u32,
    // Of each partition the last epoch that it has committed.
    committed: Vec<u32>,
    writers: Vec<Blocks>,
    epochs: VecDeque<Version>,
}

impl Model for Versions {
    ghost use Rattle.kin_blocks.specs.Versions.{VersionsView, IsVersions, AreWritten};

    ghost Value = { VersionsView };

    ghost view = { λ v. record { first = v.first; committed = v.committed.items; epochs = v.epochs.items } };

    ghost invariant = { λ v. IsVersions (record {
      first = v.first;
      committed = v.committed.items;
      epochs = v.epochs.items;
    }) × AreWritten (record {
      first = v.first;
      committed = v.committed.items;
      epochs = v.epochs.items;
    }) v.writers.items };
}

// A writer of each partition, with an empty store.
fn first_writers(alloc: Global, parts: u16) -> Result<Vec<Blocks>, Memory>
    ensures { IfOk result (λ ws. ws.items ≡ first_writers parts) }
{
    let mut writers = Vec::with_capacity(alloc, usize::from(parts))?;
    for p in 0..parts {
        writers.push(Blocks::new(alloc, PartId(p), parts)?)?;
    }
    Ok(writers)
}

impl Versions {
    ghost use Rattle.kin_blocks.specs.Blocks.{pieces_of, MayTake};
    ghost use Rattle.kin_blocks.specs.Versions.{IsVersions, IsKept, CommitsNext, committed_at, deltas_at};
    ghost use Rattle.kin_blocks.specs.Versions.{snap_at, store_at, version_at, first_versions, released};

    /// Epoch 0 alone, which every partition has committed, and which is empty.
    pub fn new(alloc: Global, parts: u16) -> Result<Versions, Memory>
        requires { 0 < parts }
        ensures value { IfOk result (λ v. v ≡ first_versions parts) }
        ensures versions { IfOk result IsVersions }
    {
        let mut epochs = VecDeque::new(alloc);
        epochs.push_back(Version::unchanged(alloc, Snap::empty(alloc, parts)?)?)?;
        Ok(Versions {
            alloc,
            first: 0,
            committed: vec![in alloc; 0; usize::from(parts)]?,
            writers: first_writers(alloc, parts)?,
            epochs,
        })
    }

    /// The last epoch that a partition has committed, 0 at first. It costs O(1).
    pub fn committed(&self, p: PartId) -> u32
        requires { p.0 < length self.now.committed }
        ensures { result ≡ committed_at self.now p.0 }
    {
        self.committed[usize::from(p.0)]
    }

    /// A partition commits the pieces of its next epoch, one run after the other. It costs what the pieces cost, and
    /// O(n) in the partitions for the first that comes to an epoch.
    pub fn commit(&mut self, p: PartId, runs: &[Run]) -> Result<(), Memory>
        requires part { p.0 < length self.old.committed }
        requires room { committed_at self.old p.0 < u32.MAX }
        requires may { MayTake (committed_at self.old p.0 + 1) (store_at self.old p.0 (committed_at self.old p.0))
            (pieces_of runs.now) }
        ensures ok { OnOk result (CommitsNext self.old p.0 (pieces_of runs.now) self.new) }
        ensures err { OnErr result (self.new ≡ self.old) }
        ensures versions { IsVersions self.new }
    {
        let next = self.committed(p) + 1;
        let at = (next - self.first) as usize;
        let spare = spare_for(self.alloc, &mut self.epochs, at)?;
        let frozen = self.writers[usize::from(p.0)].advance(Epoch(next), runs)?;
        place(&mut self.epochs, spare, at, p, frozen);
        self.committed[usize::from(p.0)] = next;
        Ok(())
    }

    /// The graph at the end of an epoch. None exactly where a partition hasn't committed the epoch, or it was let go.
    /// It costs O(n) in the partitions.
    pub fn snapshot(&self, k: Epoch) -> Option<&Snap>
        ensures kept { IsSome result ↔ IsKept self.now k.0 }
        ensures snap { IfSome result (λ s. s.now ≡ snap_at self.now k.0) }
    {
        let version = self.version(k)?;
        Some(&version.snap)
    }

    /// What an epoch changed, partition by partition. None exactly where a partition hasn't committed the epoch, or it
    /// was let go. It costs O(n) in the partitions.
    pub fn deltas(&self, k: Epoch) -> Option<&[Delta]>
        ensures kept { IsSome result ↔ IsKept self.now k.0 }
        ensures deltas { IfSome result (λ ds. ds.now ≡ deltas_at self.now k.0) }
    {
        let version = self.version(k)?;
        Some(&version.deltas)
    }

    // The version of an epoch that is kept.
    fn version(&self, k: Epoch) -> Option<&Version>
        ensures kept { IsSome result ↔ IsKept self.now k.0 }
        ensures version { IfSome result (λ v. v.now ≡ version_at self.now k.0) }
    {
        if k.0 < self.first || self.committed.iter().any(|last| *last < k.0) {
            return None;
        }
        self.epochs.get((k.0 - self.first) as usize)
    }

    /// Lets go of every epoch below one that all partitions have committed. It costs O(n) in what it lets go.
    pub fn release_below(&mut self, k: Epoch)
        requires { (p : ℕ) → p < length self.old.committed → k.0 ≤ committed_at self.old p }
        ensures released { self.new ≡ released self.old k.0 }
        ensures kept { (j : ℕ) → k.0 ≤ j → IsKept self.old j → version_at self.new j ≡ version_at self.old j }
        ensures versions { IsVersions self.new }
    {
        let count = k.0.saturating_sub(self.first) as usize;
        drop(self.epochs.drain(..count));
        self.first = self.first.max(k.0);
    }
}
