//! The core of a hub: the partitions' chains, and the table.

ghost use Rattle.std.specs.Prelude.{◌≡◌, ◌≤◌, ◌<◌, ◌⊎◌, ◌↔◌, ℕ, All, IfOk, IfSome};
ghost use Rattle.std.specs.Prelude.{OnErr, OnOk, IsErr, IsErrOf, IsNone, Some, length, map};
ghost use Rattle.kin_ids.specs.declared.ops.Piece.{Piece};
ghost use Rattle.kin_ids.specs.Operations.{IsWellFormed};
ghost use Rattle.kin_held.specs.Chains.{ChainView};
ghost use Rattle.kin_hub.specs.Cores.{kept_inc};
ghost use Rattle.kin_hub.specs.Cuts.{front_for};

use crate::commits::{epoch_runs, forget_epoch};
use crate::runs::{between, shared_end};
use kin_blocks::Run;
use kin_held::{Held, Taken};
use kin_ids::{Epoch, Inc, IngestId, Memory, PartId, Piece, Stamp, StampList};
use kin_table::{Cut, CutRefused, End, IncarnationsSpent, Raised, Table};
use std::alloc::Global;
use std::marker::Model;

/// The chains of each partition, and the table. `incs` and `tops` have room for a report.
#[derive(Drop)]
pub(crate) struct Core {
    alloc: Global,
    helds: Vec<Held>,
    table: Table,
    incs: Vec<Inc>,
    tops: Vec<u64>,
}

impl Model for Core {
    ghost use Rattle.std.specs.Prelude.{◌≡◌, length};
    ghost use Rattle.kin_hub.specs.Cores.{CoreView, IsCore};

    ghost Value = { CoreView };

    ghost view = { λ c. record { helds = c.helds.items; table = c.table } };

    ghost invariant = { λ c. IsCore (record { helds = c.helds.items; table = c.table })
        × (length c.incs.items ≡ length c.table.agreed) × (length c.tops.items ≡ length c.table.agreed) };
}

impl Core {
    ghost use Rattle.kin_held.specs.Takes.{taken_of, IsPlace};
    ghost use Rattle.kin_blocks.specs.Blocks.{pieces_of};
    ghost use Rattle.kin_table.specs.Tables.{agreed_of, inc_of, base_of, reach_of};
    ghost use Rattle.kin_table.specs.Tables.{raised_of, missing_of, cuts_of, last_of};
    ghost use Rattle.kin_table.specs.Vectors.{vector_at, end_at};
    ghost use Rattle.kin_table.specs.Lists.{list_at};
    ghost use Rattle.kin_table.specs.Cuts.{IsNextCut};
    ghost use Rattle.kin_hub.specs.Cuts.{HasRecords};
    ghost use Rattle.kin_hub.specs.Cores.{CoreTakes, IsCore, held_at, chain_of, least_reach, ready};
    ghost use Rattle.kin_hub.specs.Cores.{stamps_between, since_cut, with_report, with_raise, with_seal, with_cut};
    ghost use Rattle.kin_hub.specs.Commits.{CoreForgets, epoch_pieces};
    ghost use Rattle.kin_hub.specs.Opens.{first_core};

    /// Nothing came yet.
    pub fn new(alloc: Global, nodes: u16, parts: u16) -> Result<Core, Memory>
        requires nodes { 0 < nodes }
        requires parts { 0 < parts }
        ensures value { IfOk result (λ c. c ≡ first_core nodes parts) }
        ensures core { IfOk result IsCore }
    {
        let mut helds = Vec::with_capacity(alloc, usize::from(parts))?;
        for _part in 0..parts {
            helds.push(Held::new(alloc, nodes)?)?;
        }
        let count = usize::from(nodes);
        Ok(Core {
            alloc,
            helds,
            table: Table::new(alloc, nodes, parts)?,
            incs: vec![in alloc; Inc(0); count]?,
            tops: vec![in alloc; 0; count]?,
        })
    }

    /// A partition takes a piece.
    pub fn take(&mut self, piece: Piece) -> Result<Taken, Memory>
        requires formed { IsWellFormed piece }
        requires node { piece.stamp.ingest.0 < length self.old.table.agreed }
        requires part { piece.part.0 < length self.old.helds }
        ensures answer { IfOk result (λ taken.
            taken ≡ taken_of (chain_of self.old piece.part.0 piece.stamp.ingest.0) piece
            (chain_of self.new piece.part.0 piece.stamp.ingest.0).top) }
        ensures taken { IfOk result (λ taken. CoreTakes self.old piece taken self.new) }
        ensures err { OnErr result (self.new ≡ self.old) }
        ensures core { IsCore self.new }
    {
        let held = &mut self.helds[usize::from(piece.part.0)];
        held.take(piece)
    }

    /// Writes a partition's row anew. It costs O(n) in the nodes.
    pub fn report(&mut self, p: PartId)
        requires { p.0 < length self.old.helds }
        ensures row { self.new ≡ with_report self.old p.0 }
        ensures core { IsCore self.new }
    {
        let held = &self.helds[usize::from(p.0)];
        read(held, &mut self.incs, &mut self.tops);
        self.table.report(p, &self.incs, &self.tops);
    }

    /// Up to where the agreed position of node `i` may be raised. It costs a search by halves in the chain of each
    /// partition, and O(n) in the stamps that are new there.
    pub fn ready(&self, i: IngestId) -> u64
        requires node { i.0 < length self.now.table.agreed }
        requires reached { (p : ℕ) → p < length self.now.table.rows
            → agreed_of self.now.table i.0 ≤ reach_of self.now.table p i.0 }
        ensures { result ≡ ready self.now i.0 }
    {
        let agreed = self.table.agreed(i);
        let reach = self.least_reach(i);
        shared_end(&self.helds, i, agreed, reach)
    }

    /// Raises the agreed position of node `i` to the ready one.
    pub fn raise(&mut self, i: IngestId) -> Raised
        requires node { i.0 < length self.old.table.agreed }
        requires at_least { agreed_of self.old.table i.0 ≤ ready self.old i.0 }
        requires at_most { (p : ℕ) → p < length self.old.table.rows
            → ready self.old i.0 ≤ reach_of self.old.table p i.0 }
        ensures answer { result ≡ raised_of (agreed_of self.old.table i.0) (ready self.old i.0) }
        ensures raised { self.new ≡ with_raise self.old i.0 }
        ensures core { IsCore self.new }
    {
        let ready = self.ready(i);
        self.table.raise(i, ready)
    }

    /// Ends the incarnation of node `i` at the agreed position.
    pub fn seal(&mut self, i: IngestId) -> Result<End, IncarnationsSpent>
        requires { i.0 < length self.old.table.agreed }
        ensures spent { IsErr result ↔ (inc_of self.old.table i.0 ≡ u16.MAX) }
        ensures err { OnErr result (self.new ≡ self.old) }
        ensures base { IfOk result (λ end. end ≡ base_of self.old.table i.0) }
        ensures sealed { OnOk result (self.new ≡ with_seal self.old i.0) }
        ensures core { IsCore self.new }
    {
        self.table.seal(i)
    }

    /// The agreed stamps of node `i` past a position, as partition 0 has them.
    pub fn agreed_since(&self, i: IngestId, from: u64) -> Result<StampList, Memory>
        requires node { i.0 < length self.now.table.agreed }
        requires ahead { from ≤ agreed_of self.now.table i.0 }
        ensures { IfOk result (λ stamps.
            stamps ≡ stamps_between (chain_of self.now 0 i.0) from (agreed_of self.now.table i.0)) }
    {
        let agreed = self.table.agreed(i);
        let run = between(&self.helds[0], i, from, agreed);
        Ok(StampList::of(stamps(self.alloc, run)?))
    }

    /// Cuts the next epoch.
    pub fn cut(&mut self, n: Option<u64>) -> Result<Cut, CutRefused>
        requires room { cuts_of self.old.table < u32.MAX }
        requires ahead { (i : ℕ) → i < length self.old.table.agreed
            → (last_of self.old.table i).to ≤ agreed_of self.old.table i }
        requires sized { (i : ℕ) → i < length self.old.table.agreed → All HasRecords (list_at (since_cut self.old) i) }
        ensures not_reported { (p : PartId)
            → IsErrOf result (CutRefused.NotReported p) ↔ (missing_of self.old.table ≡ Some p.0) }
        ensures err { OnErr result (self.new ≡ self.old) }
        ensures cut { IfOk result (IsNextCut self.old.table n (since_cut self.old)) }
        ensures appended { IfOk result (λ cut. self.new ≡ with_cut self.old cut.ends) }
        ensures core { IsCore self.new }
    {
        if let Some(part) = self.table.missing() {
            return Err(CutRefused::NotReported(part));
        }
        let lists = self.since_cut(n)?;
        self.table.cut(n, &lists)
    }

    // Each node's agreed stamps past the last vector, where there is a number only so many of each.
    fn since_cut(&self, n: Option<u64>) -> Result<Vec<StampList>, Memory>
        requires { (i : ℕ) → i < length self.now.table.agreed
            → (last_of self.now.table i).to ≤ agreed_of self.now.table i }
        ensures { IfOk result (λ lists. lists.items ≡ map (front_for n) (since_cut self.now)) }
    {
        let mut lists = Vec::with_capacity(self.alloc, self.tops.len())?;
        for i in 0..self.tops.len() {
            lists.push(self.pending(IngestId(i as u16), n)?)?;
        }
        Ok(lists)
    }

    // The agreed stamps of node `i` past the last vector, where there is a number only so many.
    fn pending(&self, i: IngestId, n: Option<u64>) -> Result<StampList, Memory>
        requires node { i.0 < length self.now.table.agreed }
        requires ahead { (last_of self.now.table i.0).to ≤ agreed_of self.now.table i.0 }
        ensures { IfOk result (λ stamps. stamps ≡ front_for n (stamps_between (chain_of self.now 0 i.0)
            (last_of self.now.table i.0).to (agreed_of self.now.table i.0))) }
    {
        let last = self.table.last(i);
        let run = between(&self.helds[0], i, last, self.table.agreed(i));
        Ok(StampList::of(stamps(self.alloc, front(run, n))?))
    }

    /// The pieces of a cut epoch that partition `p` has, node by node.
    pub fn runs(&self, p: PartId, k: Epoch) -> Result<Vec<Run<'_>>, Memory>
        requires part { p.0 < length self.now.helds }
        requires some { 0 < k.0 }
        requires cut { k.0 ≤ cuts_of self.now.table }
        ensures { IfOk result (λ runs. pieces_of runs.items ≡ epoch_pieces (held_at self.now.helds p.0)
            (vector_at self.now.table.vectors k.0) (length self.now.table.agreed)) }
    {
        let cut = self.table.cut_of(k).unwrap();
        let held = &self.helds[usize::from(p.0)];
        epoch_runs(self.alloc, held, cut.ends.as_slice())
    }

    /// Lets go of the pieces of partition `p` up to the ends of a cut.
    pub fn forget(&mut self, p: PartId, k: Epoch)
        requires part { p.0 < length self.old.helds }
        requires some { 0 < k.0 }
        requires cut { k.0 ≤ cuts_of self.old.table }
        requires places { (i : ℕ) → i < length self.old.table.agreed
            → IsPlace (chain_of self.old p.0 i) (end_at (vector_at self.old.table.vectors k.0) i).to }
        ensures forgets { CoreForgets self.old p.0 (vector_at self.old.table.vectors k.0) self.new }
        ensures core { IsCore self.new }
    {
        let cut = self.table.cut_of(k).unwrap();
        let held = &mut self.helds[usize::from(p.0)];
        forget_epoch(held, cut.ends.as_slice());
    }

    pub fn cuts(&self) -> u64
        ensures { result ≡ cuts_of self.now.table }
    {
        self.table.cuts()
    }

    pub fn cut_of(&self, k: Epoch) -> Option<&Cut>
        ensures none { IsNone result ↔ ((k.0 ≡ 0) ⊎ (cuts_of self.now.table < k.0)) }
        ensures cut { IfSome result (λ cut.
            cut.now ≡ record { epoch = k; ends = vector_at self.now.table.vectors k.0 }) }
    {
        self.table.cut_of(k)
    }

    pub fn agreed(&self, i: IngestId) -> u64
        requires { i.0 < length self.now.table.agreed }
        ensures { result ≡ agreed_of self.now.table i.0 }
    {
        self.table.agreed(i)
    }

    pub fn inc(&self, i: IngestId) -> Inc
        requires { i.0 < length self.now.table.agreed }
        ensures { result.0 ≡ inc_of self.now.table i.0 }
    {
        self.table.inc(i)
    }

    fn least_reach(&self, i: IngestId) -> u64
        requires { i.0 < length self.now.table.agreed }
        ensures { result ≡ least_reach self.now i.0 }
    {
        let mut least = self.table.reach(PartId(0), i);
        for p in 0..self.helds.len() {
            least = least.min(self.table.reach(PartId(p as u16), i));
        }
        least
    }
}

// Writes down the incarnations and the tops of a partition's chains.
fn read(held: &Held, incs: &mut [Inc], tops: &mut [u64])
    requires incs { length incs.old ≡ length held.now }
    requires tops { length tops.old ≡ length held.now }
    requires few { length held.now < 65536 }
    ensures incs { incs.new ≡ map kept_inc held.now }
    ensures tops { tops.new ≡ map (λ (chain : ChainView). chain.top) held.now }
{
    for i in 0..incs.len() {
        let node = IngestId(i as u16);
        incs[i] = held.inc(node);
        tops[i] = held.top(node);
    }
}

// The stamps of pieces.
fn stamps(alloc: Global, run: &[Piece]) -> Result<Vec<Stamp>, Memory>
    ensures { IfOk result (λ v. v.items ≡ map (λ (x : Piece). x.stamp) run.now) }
{
    Ok(run.iter().map(|piece| piece.stamp).collect(alloc)?)
}

// The first of these, at most so many where there is a number.
fn front(run: &[Piece], n: Option<u64>) -> &[Piece]
    ensures { result.now ≡ front_for n run.now }
{
    match n {
        None => run,
        Some(n) => &run[..run.len().min(n as usize)],
    }
}
