//! The hub.

ghost use Rattle.std.specs.Prelude.{◌≡◌, ◌<◌, ◌≤◌, ◌+◌, ◌⊎◌, ◌↔◌, ℕ, List, IfOk};
ghost use Rattle.std.specs.Prelude.{IfSome, OnErr, OnOk, IsErr, IsErrOf, IsNone, IsSome, Some, length};
ghost use Rattle.kin_ids.specs.declared.ops.Record.{Record};

use crate::answers::CommitRefused;
use crate::cores::Core;
use kin_blocks::{Delta, Snap, Versions};
use kin_held::Taken;
use kin_ids::{Epoch, Inc, IngestId, Memory, PartId, Piece, StampList};
use kin_table::{Cut, CutRefused, End, IncarnationsSpent, Raised};
use std::alloc::Global;
use std::marker::Model;

/// The partitions, what they reported, and what is agreed. In every call nodes and partitions are in range.
#[derive(Drop)]
pub struct Hub {
    core: Core,
    versions: Versions,
}

impl Model for Hub {
    ghost use Rattle.kin_hub.specs.Hubs.{HubView};
    ghost use Rattle.kin_hub.specs.Stands.{HasStory};

    ghost Value = { HubView };

    ghost view = { λ h. record { core = h.core; versions = h.versions } };

    ghost invariant = { λ h. HasStory (record { core = h.core; versions = h.versions }) };
}

impl Hub {
    ghost use Rattle.kin_ids.specs.Lines.{end_of};
    ghost use Rattle.kin_held.specs.Takes.{taken_of};
    ghost use Rattle.kin_hub.specs.Fronts.{IsLongestFront};
    ghost use Rattle.kin_table.specs.Tables.{base_of, raised_of};
    ghost use Rattle.kin_table.specs.Vectors.{vector_at};
    ghost use Rattle.kin_table.specs.Cuts.{IsNextCut};
    ghost use Rattle.kin_hub.specs.Cores.{CoreTakes, least_reach, past_in, ready_run, ready};
    ghost use Rattle.kin_hub.specs.Cores.{since_cut, with_report, with_raise, with_seal, with_cut};
    ghost use Rattle.kin_hub.specs.Hubs.{KeepsEpoch, parts_in, nodes_in, chain_in, agreed_in, inc_in};
    ghost use Rattle.kin_hub.specs.Hubs.{missing_in, cuts_in, last_in, committed_in, deltas_in, snap_in};
    ghost use Rattle.kin_blocks.specs.Versions.{released};
    ghost use Rattle.kin_hub.specs.Commits.{MayCommit, AreDeltas, AreSnapshot, Commits, KeepsSnaps, KeepsSnapsFrom};
    ghost use Rattle.kin_hub.specs.Opens.{first_hub, first_story};
    ghost use Rattle.kin_hub.specs.Stands.{HubStands};
    ghost use Rattle.kin_hub.specs.Goes.{Knows, HubPlaces, HubKeeps, HubRaises, HubSeals, HubCuts, AreSince};

    /// Nothing came yet. It stands for no lines, over every list of feeds with one feed for each node.
    pub fn new(alloc: Global, nodes: u16, parts: u16) -> Result<Hub, Memory>
        requires nodes { 0 < nodes }
        requires parts { 0 < parts }
        ensures value { IfOk result (λ h. h ≡ first_hub nodes parts) }
        ensures stands { IfOk result (λ h. (feeds : List (List Record)) → length feeds ≡ nodes
            → HubStands (first_story feeds parts) h) }
    {
        Ok(Hub {
            core: Core::new(alloc, nodes, parts)?,
            versions: Versions::new(alloc, parts)?,
        })
    }

    /// A partition takes a piece. After `Memory` the piece is gone. It costs O(log n) in the early pieces of the chain
    /// for itself and for each piece that joins with it; a later incarnation costs what it drops besides.
    pub fn take(&mut self, piece: Piece) -> Result<Taken, Memory>
        requires node { piece.stamp.ingest.0 < nodes_in self.old }
        requires part { piece.part.0 < parts_in self.old }
        requires known { Knows self.old piece }
        ensures answer { IfOk result (λ taken.
            taken ≡ taken_of (chain_in self.old piece.part.0 piece.stamp.ingest.0) piece
            (chain_in self.new piece.part.0 piece.stamp.ingest.0).top) }
        ensures taken { IfOk result (λ taken. CoreTakes self.old.core piece taken self.new.core) }
        ensures versions { self.new.versions ≡ self.old.versions }
        ensures stands { IfOk result (λ _. HubPlaces self.old piece self.new) }
        ensures err { OnErr result (self.new ≡ self.old) }
    {
        self.core.take(piece)
    }

    /// Writes a partition's row anew: of each node the incarnation that its chain keeps, and its top. It costs O(n) in
    /// the nodes, and takes no memory.
    pub fn report(&mut self, p: PartId)
        requires { p.0 < parts_in self.old }
        ensures row { self.new ≡ record self.old { core = with_report self.old.core p.0 } }
        ensures stands { HubKeeps self.old self.new }
    {
        self.core.report(p);
    }

    /// Up to where the agreed position of node `i` may be raised: the end of the run past it that the chains of all
    /// partitions share, up to the least reach. It costs a search by halves in the chain of each partition, and O(n) in
    /// the stamps that are new there.
    pub fn ready(&self, i: IngestId) -> u64
        requires { i.0 < nodes_in self.now }
        ensures end { result ≡ end_of (agreed_in self.now i.0) (ready_run self.now.core i.0) }
        ensures run { IsLongestFront (least_reach self.now.core i.0)
            (past_in self.now.core.helds (agreed_in self.now i.0) i.0) (ready_run self.now.core i.0) }
    {
        self.core.ready(i)
    }

    /// Raises the agreed position of node `i` to the ready one, at the cost of `ready`. It takes no memory.
    pub fn raise(&mut self, i: IngestId) -> Raised
        requires { i.0 < nodes_in self.old }
        ensures answer { result ≡ raised_of (agreed_in self.old i.0) (ready self.old.core i.0) }
        ensures raised { self.new ≡ record self.old { core = with_raise self.old.core i.0 } }
        ensures stands { HubRaises self.old i.0 self.new }
    {
        self.core.raise(i)
    }

    /// Ends the incarnation of node `i` at the agreed position, where the next one begins. It costs O(1), and takes no
    /// memory.
    pub fn seal(&mut self, i: IngestId) -> Result<End, IncarnationsSpent>
        requires { i.0 < nodes_in self.old }
        ensures spent { IsErr result ↔ (inc_in self.old i.0 ≡ u16.MAX) }
        ensures err { OnErr result (self.new ≡ self.old) }
        ensures base { IfOk result (λ end. end ≡ base_of self.old.core.table i.0) }
        ensures sealed { OnOk result (self.new ≡ record self.old { core = with_seal self.old.core i.0 }) }
        ensures stands { OnOk result (HubSeals self.old i.0 self.new) }
    {
        self.core.seal(i)
    }

    /// The agreed stamps of node `i` past a position, which is at or past the last vector. It costs a search by halves
    /// and O(n) in the stamps.
    pub fn agreed_since(&self, i: IngestId, from: u64) -> Result<StampList, Memory>
        requires node { i.0 < nodes_in self.now }
        requires after_cut { last_in self.now i.0 ≤ from }
        requires ahead { from ≤ agreed_in self.now i.0 }
        ensures { IfOk result (AreSince self.now i.0 from) }
    {
        self.core.agreed_since(i, from)
    }

    /// Cuts the next epoch: at the agreed positions, or with a number by the fair cut from the last vector on. It costs
    /// O(n) in the partitions and the nodes, and besides in the agreed stamps past the last vector, of each node at
    /// most so many as the number says.
    pub fn cut(&mut self, n: Option<u64>) -> Result<Cut, CutRefused>
        requires { cuts_in self.old < u32.MAX }
        ensures not_reported { (p : PartId)
            → IsErrOf result (CutRefused.NotReported p) ↔ (missing_in self.old ≡ Some p.0) }
        ensures err { OnErr result (self.new ≡ self.old) }
        ensures cut { IfOk result (IsNextCut self.old.core.table n (since_cut self.old.core)) }
        ensures appended { IfOk result (λ cut. self.new ≡ record self.old { core = with_cut self.old.core cut.ends }) }
        ensures stands { OnOk result (HubCuts self.old n self.new) }
    {
        self.core.cut(n)
    }

    /// How many epochs are cut. It costs O(1).
    pub fn cuts(&self) -> u64
        ensures { result ≡ cuts_in self.now }
    {
        self.core.cuts()
    }

    /// The cut of an epoch, from epoch 1 on. It costs O(1).
    pub fn cut_of(&self, k: Epoch) -> Option<&Cut>
        ensures none { IsNone result ↔ ((k.0 ≡ 0) ⊎ (cuts_in self.now < k.0)) }
        ensures cut { IfSome result (λ cut.
            cut.now ≡ record { epoch = k; ends = vector_at self.now.core.table.vectors k.0 }) }
    {
        self.core.cut_of(k)
    }

    /// Commits partition `p`'s next epoch: its store takes the epoch's pieces in the agreed order, node by node, and
    /// its chains let go of them. It costs what the pieces cost, and O(n) in the nodes; the first commit of an epoch
    /// costs O(n) in the partitions besides. After `Memory` the store is back where it was.
    pub fn commit(&mut self, p: PartId) -> Result<Epoch, CommitRefused>
        requires part { p.0 < parts_in self.old }
        requires said { MayCommit self.old p.0 }
        ensures nothing_cut { IsErrOf result CommitRefused.NothingCut ↔ (committed_in self.old p.0 ≡ cuts_in self.old) }
        ensures err { OnErr result (self.new ≡ self.old) }
        ensures epoch { IfOk result (λ k. k.0 ≡ committed_in self.old p.0 + 1) }
        ensures commits { OnOk result (Commits self.old p.0 self.new) }
        ensures kept { OnOk result (KeepsSnaps self.old self.new) }
        ensures stands { OnOk result (HubKeeps self.old self.new) }
    {
        let last = self.versions.committed(p);
        if self.core.cuts() <= u64::from(last) {
            return Err(CommitRefused::NothingCut);
        }
        let next = Epoch(last + 1);
        let runs = self.core.runs(p, next)?;
        self.versions.commit(p, &runs)?;
        drop(runs);
        self.core.forget(p, next);
        Ok(next)
    }

    /// The last epoch that partition `p` has committed, 0 at first. It costs O(1).
    pub fn committed(&self, p: PartId) -> u64
        requires { p.0 < parts_in self.now }
        ensures { result ≡ committed_in self.now p.0 }
    {
        u64::from(self.versions.committed(p))
    }

    /// The graph at the end of an epoch. None exactly where a partition hasn't committed the epoch, or it was let go.
    /// Epoch 0 is the empty graph. It costs O(n) in the partitions.
    pub fn snapshot(&self, k: Epoch) -> Option<&Snap>
        ensures kept { IsSome result ↔ KeepsEpoch self.now k.0 }
        ensures snap { IfSome result (λ snap. snap.now ≡ snap_in self.now k.0) }
        ensures whole { IfSome result (λ snap. AreSnapshot self.now k.0 snap.now) }
    {
        self.versions.snapshot(k)
    }

    /// What an epoch changed, partition by partition. None exactly where a partition hasn't committed the epoch, or it
    /// was let go. Of epoch 0 they are empty. It costs O(n) in the partitions.
    pub fn deltas(&self, k: Epoch) -> Option<&[Delta]>
        ensures kept { IsSome result ↔ KeepsEpoch self.now k.0 }
        ensures deltas { IfSome result (λ deltas. deltas.now ≡ deltas_in self.now k.0) }
        ensures whole { IfSome result (λ deltas. AreDeltas self.now k.0 deltas.now) }
    {
        self.versions.deltas(k)
    }

    /// Lets go of every epoch below one that all partitions have committed. No other call lets go of one. It costs O(n)
    /// in what it lets go, and takes no memory.
    pub fn release_below(&mut self, k: Epoch)
        requires { (p : ℕ) → p < parts_in self.old → k.0 ≤ committed_in self.old p }
        ensures released { self.new ≡ record self.old { versions = released self.old.versions k.0 } }
        ensures kept { KeepsSnapsFrom k.0 self.old self.new }
        ensures stands { HubKeeps self.old self.new }
    {
        self.versions.release_below(k);
    }

    /// Up to where every partition has node `i`, as last raised. It costs O(1).
    pub fn agreed(&self, i: IngestId) -> u64
        requires { i.0 < nodes_in self.now }
        ensures { result ≡ agreed_in self.now i.0 }
    {
        self.core.agreed(i)
    }

    /// The incarnation of node `i`. It costs O(1).
    pub fn inc(&self, i: IngestId) -> Inc
        requires { i.0 < nodes_in self.now }
        ensures { result.0 ≡ inc_in self.now i.0 }
    {
        self.core.inc(i)
    }
}
