//! One partition's store, as it is written: what it shares with the versions that were frozen, and what changed since
//! the last.

ghost use Rattle.std.specs.Prelude.{◌≡◌, ◌<◌, ◌^◌, ℕ, All, IfOk, OnOk, OnErr};
ghost use Rattle.kin_ids.specs.declared.ids.User.{User};
ghost use Rattle.kin_ids.specs.Operations.{op_part};
ghost use Rattle.kin_graph.specs.Deltas.{IsDelta};
ghost use Rattle.kin_graph.specs.State.{after, empty_part, view_of, TakesPart};

use crate::runs::Run;
use kin_graph::{Delta, PartGraph, PartSnap, Touched};
use kin_ids::{Epoch, Memory, PartId, Piece};
use std::alloc::Global;
use std::marker::Model;

/// A partition's store at one moment, and what changed since it was frozen before.
#[derive(Drop)]
pub struct Frozen {
    /// The store.
    pub snap: PartSnap,
    /// What changed.
    pub delta: Delta,
}

/// A partition's store that is written, the one that was frozen last, and what was touched since. The two share what
/// didn't change.
#[derive(Drop)]
pub struct Blocks {
    alloc: Global,
    graph: PartGraph,
    frozen: PartSnap,
    touched: Touched,
}

impl Model for Blocks {
    ghost use Rattle.kin_blocks.specs.Blocks.{BlocksView, IsWriter};

    ghost Value = { BlocksView };

    ghost view = { λ b. record { latest = b.graph; frozen = b.frozen } };

    ghost invariant = { λ b. IsWriter (record { latest = b.graph; frozen = b.frozen }) b.touched };
}

impl Blocks {
    ghost use Rattle.kin_blocks.specs.Blocks.{fresh, pieces_applied, pieces_of, IsOfStore, MayTake, GoesOn};

    /// An empty store. Its partition is one of `parts` many.
    pub fn new(alloc: Global, part: PartId, parts: u16) -> Result<Blocks, Memory>
        requires { part.0 < parts }
        ensures { IfOk result (λ b. b ≡ fresh (empty_part part.0 parts)) }
    {
        let graph = PartGraph::new(alloc, part, parts)?;
        let frozen = graph.snap().share()?;
        Ok(Blocks {
            alloc,
            graph,
            frozen,
            touched: Touched::new(alloc),
        })
    }

    /// Which partition it is. It takes no memory.
    pub fn part(&self) -> PartId
        ensures { result.0 ≡ self.now.latest.part }
    {
        self.graph.part()
    }

    /// The store as it is.
    pub fn latest(&self) -> &PartSnap
        ensures { result.now ≡ self.now.latest }
    {
        self.graph.snap()
    }

    /// An equal one, which shares the rows and is written by itself. O(n) in what was touched since the last freeze,
    /// and in the items past the first few of each list, since each writer has an index of its own.
    pub fn draft(&self) -> Result<Blocks, Memory>
        ensures { IfOk result (λ b. b ≡ self.now) }
    {
        Ok(Blocks {
            alloc: self.alloc,
            graph: self.graph.copy()?,
            frozen: self.frozen.share()?,
            touched: self.touched.copy()?,
        })
    }

    /// Applies a piece of an epoch. O(log n) per operation, and a copy of what is shared and written.
    pub fn apply(&mut self, epoch: Epoch, piece: &Piece) -> Result<(), Memory>
        requires part { piece.now.part.0 ≡ self.old.latest.part }
        requires home { All (λ x. op_part self.old.latest.parts x.op ≡ self.old.latest.part) piece.now.ops }
        requires said { (u : User) → (after epoch.0 piece.now (view_of self.old.latest)).said u < 2 ^ 64 }
        ensures ok { OnOk result (view_of self.new.latest ≡ after epoch.0 piece.now (view_of self.old.latest)) }
        ensures whole { OnOk result (TakesPart epoch.0 piece.now self.old.latest self.new.latest) }
        ensures same { (self.new.latest.part ≡ self.old.latest.part) × (self.new.latest.parts ≡ self.old.latest.parts) }
        ensures frozen { self.new.frozen ≡ self.old.frozen }
        ensures err { OnErr result (self.new ≡ self.old) }
    {
        self.touched.note(piece.ops.as_slice())?;
        self.graph.apply(epoch, piece)
    }

    /// Applies an epoch's pieces, one run after the other, to a store that was frozen last, and freezes it then. It
    /// costs what the pieces cost.
    pub fn advance(&mut self, epoch: Epoch, runs: &[Run]) -> Result<Frozen, Memory>
        requires frozen { self.old.latest ≡ self.old.frozen }
        requires may { MayTake epoch.0 self.old.latest (pieces_of runs.now) }
        ensures applied { IfOk result (λ f. view_of f.snap
            ≡ pieces_applied epoch.0 (view_of self.old.latest) (pieces_of runs.now)) }
        ensures same { IfOk result (λ f. (f.snap.part ≡ self.old.latest.part)
            × (f.snap.parts ≡ self.old.latest.parts)) }
        ensures exact { IfOk result (λ f. IsDelta (view_of self.old.frozen) (view_of f.snap) f.delta) }
        ensures ok { IfOk result (λ f. self.new ≡ fresh f.snap) }
        ensures err { OnErr result (self.new ≡ self.old) }
    {
        let back = self.graph.snap().share()?;
        match self.apply_and_freeze(epoch, runs) {
            Ok(frozen) => Ok(frozen),
            Err(memory) => {
                self.graph.restore(back);
                Err(memory)
            }
        }
    }

    // Applies pieces and freezes the store. After `Memory` some operations are done.
    fn apply_and_freeze(&mut self, epoch: Epoch, runs: &[Run]) -> Result<Frozen, Memory>
        requires { MayTake epoch.0 self.old.latest (pieces_of runs.now) }
        ensures applied { IfOk result (λ f. view_of f.snap
            ≡ pieces_applied epoch.0 (view_of self.old.latest) (pieces_of runs.now)) }
        ensures goes { GoesOn self.old.latest self.new.latest }
        ensures exact { IfOk result (λ f. IsDelta (view_of self.old.frozen) (view_of f.snap) f.delta) }
        ensures ok { IfOk result (λ f. self.new ≡ fresh f.snap) }
        ensures err { OnErr result (self.new.frozen ≡ self.old.frozen) }
    {
        self.apply_runs(epoch, runs)?;
        self.freeze_delta()
    }

    // Applies runs of pieces. After `Memory` some operations are done.
    fn apply_runs(&mut self, epoch: Epoch, runs: &[Run]) -> Result<(), Memory>
        requires { MayTake epoch.0 self.old.latest (pieces_of runs.now) }
        ensures ok { OnOk result (view_of self.new.latest
            ≡ pieces_applied epoch.0 (view_of self.old.latest) (pieces_of runs.now)) }
        ensures goes { GoesOn self.old.latest self.new.latest }
        ensures frozen { self.new.frozen ≡ self.old.frozen }
    {
        for run in runs {
            self.apply_run(epoch, run.pieces())?;
        }
        Ok(())
    }

    // Applies pieces in turn. After `Memory` some operations are done.
    fn apply_run(&mut self, epoch: Epoch, pieces: &[Piece]) -> Result<(), Memory>
        requires { MayTake epoch.0 self.old.latest pieces.now }
        ensures ok { OnOk result (view_of self.new.latest
            ≡ pieces_applied epoch.0 (view_of self.old.latest) pieces.now) }
        ensures goes { GoesOn self.old.latest self.new.latest }
        ensures frozen { self.new.frozen ≡ self.old.frozen }
    {
        for piece in pieces {
            self.apply_piece(epoch, piece)?;
        }
        Ok(())
    }

    // Applies a piece. After `Memory` some operations are done.
    fn apply_piece(&mut self, epoch: Epoch, piece: &Piece) -> Result<(), Memory>
        requires of_store { IsOfStore self.old.latest piece.now }
        requires said { (u : User) → (after epoch.0 piece.now (view_of self.old.latest)).said u < 2 ^ 64 }
        ensures ok { OnOk result (view_of self.new.latest ≡ after epoch.0 piece.now (view_of self.old.latest)) }
        ensures goes { GoesOn self.old.latest self.new.latest }
        ensures frozen { self.new.frozen ≡ self.old.frozen }
    {
        self.touched.note(piece.ops.as_slice())?;
        self.graph.apply_some(epoch, piece)
    }

    /// The store at this moment. What it has is shared from here on. It costs O(1).
    pub fn freeze(&mut self) -> Result<PartSnap, Memory>
        ensures snap { IfOk result (λ s. s ≡ self.old.latest) }
        ensures ok { OnOk result (self.new ≡ fresh self.old.latest) }
        ensures err { OnErr result (self.new ≡ self.old) }
    {
        let snap = self.graph.snap().share()?;
        self.frozen = self.graph.snap().share()?;
        self.touched.clear();
        Ok(snap)
    }

    /// The store at this moment, and exactly what changed since it was frozen before. O(n log n) in what was touched
    /// since.
    pub fn freeze_delta(&mut self) -> Result<Frozen, Memory>
        ensures snap { IfOk result (λ f. f.snap ≡ self.old.latest) }
        ensures exact { IfOk result (λ f. IsDelta (view_of self.old.frozen) (view_of self.old.latest) f.delta) }
        ensures ok { OnOk result (self.new ≡ fresh self.old.latest) }
        ensures err { OnErr result (self.new ≡ self.old) }
    {
        let delta = self.graph.difference(&self.frozen, &self.touched)?;
        let snap = self.freeze()?;
        Ok(Frozen { snap, delta })
    }
}
