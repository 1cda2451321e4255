//! The store of one partition, as it is written.

ghost use Rattle.std.specs.Prelude.{◌≡◌, ◌<◌, ◌^◌, IfOk, OnOk, OnErr, All};
ghost use Rattle.kin_ids.specs.declared.ids.User.{User};
ghost use Rattle.kin_ids.specs.Operations.{op_part};
ghost use Rattle.kin_graph.specs.State.{after, empty_part, view_of, LivesHere, TakesPart};
ghost use Rattle.kin_graph.specs.Changes.{done, done_all, kept, Precedes};
ghost use Rattle.kin_graph.specs.Touches.{LeavesOthers};

use kin_ids::{Epoch, IngestId, Memory, Numbered, Op, PartId, Piece, Place};
use kin_store::{Index, PartSnap};
use std::alloc::Global;
use std::marker::Model;

/// One partition's part of the graph: a store that versions share, and an index of its long lists, which is its own.
#[derive(Drop)]
pub struct PartGraph {
    pub(crate) current: PartSnap,
    pub(crate) index: Index,
}

impl Model for PartGraph {
    ghost use Rattle.kin_graph.specs.State.{PartState};
    ghost use Rattle.kin_graph.specs.Changes.{kept, IsIndexed};

    ghost Value = { PartState };

    ghost view = { λ a. a.current };

    ghost invariant = { λ a. IsIndexed (kept a.current) a.index };
}

impl PartGraph {
    /// An empty store. Its partition is one of `parts` many.
    pub fn new(alloc: Global, part: PartId, parts: u16) -> Result<PartGraph, Memory>
        requires { part.0 < parts }
        ensures { IfOk result (λ g. g ≡ empty_part part.0 parts) }
    {
        Ok(PartGraph {
            current: PartSnap::new(alloc, part, parts)?,
            index: Index::new(alloc),
        })
    }

    /// Which partition it is. It takes no memory.
    pub fn part(&self) -> PartId
        ensures number { result.0 ≡ self.now.part }
        ensures home { LivesHere self.now }
    {
        self.current.part()
    }

    /// The store as it stands, which `share` keeps as a version. O(1).
    pub fn snap(&self) -> &PartSnap
        ensures { result.now ≡ self.now }
    {
        &self.current
    }

    /// An equal one, for a second writer. It shares the store, and copies the index: O(n) for n items past the first 16
    /// of each list.
    pub fn copy(&self) -> Result<PartGraph, Memory>
        ensures { IfOk result (λ g. g ≡ self.now) }
    {
        Ok(PartGraph {
            current: self.current.share()?,
            index: self.index.clone()?,
        })
    }

    /// Applies a piece of an epoch. O(log n) per operation, and a copy of what is shared and written. After `Memory`
    /// the store is the one from before, which was shared.
    pub fn apply(&mut self, epoch: Epoch, piece: &Piece) -> Result<(), Memory>
        requires part { piece.now.part.0 ≡ self.old.part }
        requires home { All (λ x. op_part self.old.parts x.op ≡ self.old.part) piece.now.ops }
        requires said { (u : User) → (after epoch.0 piece.now (view_of self.old)).said u < 2 ^ 64 }
        ensures ok { OnOk result (view_of self.new ≡ after epoch.0 piece.now (view_of self.old)) }
        ensures whole { OnOk result (TakesPart epoch.0 piece.now self.old self.new) }
        ensures same { (self.new.part ≡ self.old.part) × (self.new.parts ≡ self.old.parts) }
        ensures err { OnErr result (self.new ≡ self.old) }
        ensures stays { OnOk result (Precedes (kept self.old) (kept self.new)) }
        ensures others { OnOk result (LeavesOthers piece.now.ops (view_of self.old) (view_of self.new)) }
    {
        let before = self.current.share()?;
        let Ok(()) = self.apply_some(epoch, piece) else {
            self.restore(before);
            return Err(Memory);
        };
        Ok(())
    }

    /// Applies a piece of an epoch. O(log n) per operation, and a copy of what is shared and written. After `Memory`
    /// some of the operations are done, each of them wholly or not: let go of it then, or `restore` a store that was
    /// shared before.
    pub fn apply_some(&mut self, epoch: Epoch, piece: &Piece) -> Result<(), Memory>
        requires part { piece.now.part.0 ≡ self.old.part }
        requires home { All (λ x. op_part self.old.parts x.op ≡ self.old.part) piece.now.ops }
        requires said { (u : User) → (after epoch.0 piece.now (view_of self.old)).said u < 2 ^ 64 }
        ensures ok { OnOk result (view_of self.new ≡ after epoch.0 piece.now (view_of self.old)) }
        ensures whole { OnOk result (TakesPart epoch.0 piece.now self.old self.new) }
        ensures same { (self.new.part ≡ self.old.part) × (self.new.parts ≡ self.old.parts) }
        ensures stays { Precedes (kept self.old) (kept self.new) }
        ensures others { LeavesOthers piece.now.ops (view_of self.old) (view_of self.new) }
    {
        self.apply_all(epoch, piece.stamp.ingest, piece.ops.as_slice())
    }

    /// Goes back to an earlier store of this partition. It takes no memory.
    pub fn restore(&mut self, snap: PartSnap)
        requires { Precedes (kept snap) (kept self.old) }
        ensures { self.new ≡ snap }
    {
        self.current = snap;
    }

    // Does what the operations say. At `Err` some of them are done.
    fn apply_all(&mut self, epoch: Epoch, ingest: IngestId, ops: &[Numbered]) -> Result<(), Memory>
        requires home { All (λ x. op_part self.old.parts x.op ≡ self.old.part) ops.now }
        requires said { (u : User) → ((done_all epoch.0 ingest.0 (kept self.old) ops.now).row u).said < 2 ^ 64 }
        ensures ok { OnOk result (kept self.new ≡ done_all epoch.0 ingest.0 (kept self.old) ops.now) }
        ensures same { (self.new.part ≡ self.old.part) × (self.new.parts ≡ self.old.parts) }
        ensures stays { Precedes (kept self.old) (kept self.new) }
        ensures others { LeavesOthers ops.now (view_of self.old) (view_of self.new) }
    {
        for numbered in ops {
            let place = Place {
                epoch,
                ingest,
                number: numbered.number,
            };
            self.write(place, &numbered.op)?;
        }
        Ok(())
    }

    // Does what an operation of this partition says.
    fn write(&mut self, place: Place, op: &Op) -> Result<(), Memory>
        requires home { op_part self.old.parts op.now ≡ self.old.part }
        requires said { (u : User) → ((done place (kept self.old) op.now).row u).said < 2 ^ 64 }
        ensures ok { OnOk result (kept self.new ≡ done place (kept self.old) op.now) }
        ensures err { OnErr result (self.new ≡ self.old) }
        ensures same { (self.new.part ≡ self.old.part) × (self.new.parts ≡ self.old.parts) }
    {
        self.current.write(&mut self.index, place, op)
    }
}
